// What a run holds: variables, levels, marks, and the image of its last SAVE.
ghost use Rattle.std.specs.Prelude.{◌≡◌, ◌<◌, slice_index};
ghost use Rattle.model.specs.Limits.{port_count, variable_count};
ghost use Rattle.model.specs.Runs.{assigns, outputs, saves};
ghost use Rattle.stepping.specs.Machines.{held, affect, empty};

use model::limits::{PORTS, VARIABLES};

// The image of a SAVE: the index of the record after it, the tick of its end, and the variables there.
#[derive(Clone, Copy)]
pub struct Image {
    pub index: u32,
    pub tick: u32,
    pub variables: [u32; VARIABLES],
}

#[derive(Drop)]
pub struct Store {
    pub variables: [u32; VARIABLES],
    pub levels: [u32; PORTS],
    // 32 bits, as the cells of a run had: `run_from` promises for whatever they are.
    pub marks: [u32; PORTS],
    pub image: Option<Image>,
}

impl Store {
    // All numbers 0, and no image.
    pub fn new() -> Store
        ensures { held result ≡ empty }
    {
        Store {
            variables: [0; VARIABLES],
            levels: [0; PORTS],
            marks: [0; PORTS],
            image: None,
        }
    }

    // A variable's value.
    pub fn variable(&self, a: usize) -> u32
        requires { a < variable_count }
        ensures { result ≡ slice_index (held self.now).variables a }
    {
        self.variables[a]
    }

    // A value put into a variable.
    pub fn assign(&mut self, a: usize, x: u32)
        requires { a < variable_count }
        ensures { held self.new ≡ affect 0 0 (assigns a x) (held self.old) }
    {
        self.variables[a] = x;
    }

    // A level written to a port, and the port's mark.
    pub fn output(&mut self, p: usize, x: u32)
        requires { p < port_count }
        ensures { held self.new ≡ affect 0 0 (outputs p x) (held self.old) }
    {
        self.levels[p] = x;
        self.marks[p] = 1;
    }

    // The image of a SAVE that ends at `tick`, before the record with that index.
    pub fn save(&mut self, index: u32, tick: u32)
        ensures { held self.new ≡ affect index tick (saves 0) (held self.old) }
    {
        let variables = self.variables;
        self.image = Some(Image {
            index,
            tick,
            variables,
        });
    }
}
