// The prepared form on the second set: whole, or stopped once and taken up; each compared with the end of the task as written.
ghost use Rattle.std.specs.Prelude.{◌≡◌, true, false, length, replicate};
ghost use Rattle.model.specs.Limits.{image_length, variable_count};
ghost use Rattle.model.specs.Stopping.{image_of};
ghost use Rattle.model.specs.declared.Form.TheVariants.{Laid};
ghost use Rattle.model.specs.Replies.{resume_reply, resume_buffers, restart_reply, restart_buffers};
ghost use Rattle.model.specs.Chain.{lend};
ghost use Rattle.model.specs.Answers.{rehearsed};
ghost use Rattle.model.specs.Rehearsal.{whole_of, taken_of, stopped_of};
ghost use Rattle.rehearsal.specs.Promises.{end_in, told_of, laid_loan, outputs_in};

use crate::ends::{Final, alike};
use crate::runs::{Finished, run_set};
use machine::{restart, resume, run_until};
use model::limits::{IMAGE_LENGTH, PORTS, VARIABLES};
use model::{Form, Refusal, Rehearsed, TakenUp};
use records::words::word_at;

// The laid file, its total, the end of the task as written, and the second set.
#[derive(Clone, Copy)]
pub struct Second<'a> {
    pub settings: &'a [u8],
    pub file: &'a [u8],
    pub total: u32,
    pub first: Final,
    pub set: &'a [u32],
    pub inputs: &'a [u32],
}

// What a stop left for the run that is taken up.
#[derive(Clone, Copy)]
pub struct Left {
    pub levels: [u32; PORTS],
    pub marks: [u8; PORTS],
    pub image: [u8; IMAGE_LENGTH],
}

impl<'a> Second<'a> {
    // What is told of the prepared form's end.
    fn told(self, last: Finished, taken_up: Option<TakenUp>) -> Rehearsed
        ensures { rehearsed (Ok result) ≡ told_of (end_in self.entry.first) self.entry.total (length self.entry.file.now) last taken_up }
    {
        Rehearsed {
            alike: alike(self.first, last.end),
            bytes: self.file.len(),
            total: self.total,
            end: last.tick,
            taken_up,
        }
    }

    // Whole.
    pub fn whole(self) -> Result<Rehearsed, Refusal>
        requires { length self.set.now ≡ variable_count }
        ensures { rehearsed result ≡ whole_of (end_in self.entry.first) self.entry.total
            (laid_loan self.entry.settings.now self.entry.file.now self.entry.set.now self.entry.inputs.now) }
    {
        let last = run_set(self.settings, Form::Laid, self.file, self.set, self.inputs)?;
        Ok(self.told(last, None))
    }

    // Taken up from the image that the stop left.
    #[tactic(auto, unfolding(model::specs::Stopping::image_of))]
    fn resumed(self, left: Left, stop: u32) -> Result<Rehearsed, Refusal>
        ensures { let c = lend self.entry.settings.now Laid self.entry.file.now self.entry.inputs.now (replicate variable_count 0) (outputs_in left) in
            rehearsed result ≡ taken_of (end_in self.entry.first) self.entry.total c stop true (image_of left.image).tick
            (resume_reply c left.image) (resume_buffers c left.image) }
    {
        let mut variables: [u32; VARIABLES] = [0; VARIABLES];
        let mut levels = left.levels;
        let mut marks = left.marks;
        let image = left.image;
        let tick = word_at(&image, 4);
        let ran = resume(
            self.settings,
            Form::Laid,
            self.file,
            &mut variables,
            self.inputs,
            &mut levels,
            &mut marks,
            &image,
        )?;
        let last = Finished::new(ran, variables, levels, marks);
        let twice = stop.saturating_sub(tick);
        Ok(self.told(
            last,
            Some(TakenUp {
                stop,
                image: Some(tick),
                twice,
            }),
        ))
    }

    // Taken up from the start, since no SAVE was finished.
    fn restarted(self, left: Left, stop: u32) -> Result<Rehearsed, Refusal>
        requires { length self.set.now ≡ variable_count }
        ensures { let c = lend self.entry.settings.now Laid self.entry.file.now self.entry.inputs.now self.entry.set.now (outputs_in left) in
            rehearsed result ≡ taken_of (end_in self.entry.first) self.entry.total c stop false 0 (restart_reply c) (restart_buffers c) }
    {
        let mut variables: [u32; VARIABLES] = [0; VARIABLES];
        variables.copy_from_slice(self.set);
        let mut levels = left.levels;
        let mut marks = left.marks;
        let ran = restart(
            self.settings,
            Form::Laid,
            self.file,
            &mut variables,
            self.inputs,
            &mut levels,
            &mut marks,
        )?;
        let last = Finished::new(ran, variables, levels, marks);
        Ok(self.told(
            last,
            Some(TakenUp {
                stop,
                image: None,
                twice: stop,
            }),
        ))
    }

    // Stopped at a tick, and taken up.
    pub fn stopped(self, stop: u32) -> Result<Rehearsed, Refusal>
        requires { length self.set.now ≡ variable_count }
        ensures { rehearsed result ≡ stopped_of (end_in self.entry.first) self.entry.total
            (laid_loan self.entry.settings.now self.entry.file.now self.entry.set.now self.entry.inputs.now)
            (replicate image_length 0) (replicate variable_count 0) stop }
    {
        let mut variables: [u32; VARIABLES] = [0; VARIABLES];
        variables.copy_from_slice(self.set);
        let mut levels: [u32; PORTS] = [0; PORTS];
        let mut marks: [u8; PORTS] = [0; PORTS];
        let mut image: [u8; IMAGE_LENGTH] = [0; IMAGE_LENGTH];
        let stopped = run_until(
            self.settings,
            Form::Laid,
            self.file,
            &mut variables,
            self.inputs,
            &mut levels,
            &mut marks,
            &mut image,
            stop,
        )?;
        let left = Left {
            levels,
            marks,
            image,
        };
        if stopped.saved {
            return self.resumed(left, stop);
        }
        self.restarted(left, stop)
    }
}
