// Row 14: whether a task surely writes, found from its last record to its first. On the way a number has a bit for each block that is met
// from there on, which is 1 for one that surely writes: lowest for the block that stands there, and then for the one after each ELSE or END
// whose block was opened further left.
#![tactic(auto)]

ghost use Rattle.std.specs.Prelude.{◌≡◌, true, List, ◌<◌};
ghost use Rattle.model.specs.declared.Form.TheVariants.{Task};
ghost use Rattle.model.specs.Records.{Rec, IF};
ghost use Rattle.model.specs.Trees.{Block, push, file_tree};
ghost use Rattle.model.specs.Refusals.{kind_fits, sound, fault};
ghost use Rattle.model.specs.Levels.{surely_writes, no_level};
ghost use Rattle.levels.specs.Flags.{flags};

use model::Form;
use records::{kind_at, kinds};

// The bits with an IF before them: those of its sides and of what follows it become one.
fn before_if(sure: u32) -> u32
    ensures { (x : Rec) (bs : List Block) → x.kind ≡ IF → sure ≡ flags bs → result ≡ flags (push x bs) }
{
    if sure % 4 == 3 {
        return sure / 8 * 2 + 1;
    }
    sure / 4
}

// The bits with a record of that kind before them; 8 open IFs have 17.
fn before(kind: u8, sure: u32) -> u32
    requires { (kind_fits Task kind ≡ true) × (sure < 131072) }
    ensures { (x : Rec) (bs : List Block) → x.kind ≡ kind → sure ≡ flags bs → result ≡ flags (push x bs) }
{
    match kind {
        kinds::WRITE => sure / 2 * 2 + 1,
        kinds::IF => before_if(sure),
        kinds::WHILE => sure / 2,
        kinds::ELSE | kinds::END => 2 * sure,
        _ => sure,
    }
}

fn surely_writes(task: &[u8]) -> bool
    requires { fault Task task.now ≡ sound }
    ensures { result ≡ surely_writes (file_tree task.now) }
{
    let n = task.len() / 12;
    let mut sure = 0;
    for i in (0..n).rev() {
        sure = before(kind_at(task, i), sure);
    }
    sure % 2 == 1
}

// Whether a file that passed rows 1 to 5 is a task that may set no level.
pub fn no_level(form: Form, file: &[u8]) -> bool
    requires { fault form file.now ≡ sound }
    ensures { result ≡ no_level form file.now }
{
    match form {
        Form::Task => !surely_writes(file),
        Form::Equalised | Form::Laid => false,
    }
}
