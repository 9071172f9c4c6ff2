// Each call's answer as the number that C gets.
ghost use Rattle.std.specs.Prelude.{◌≡◌, ◌+◌, ◌*◌, ◌^◌, ◌≤◌};
ghost use Rattle.model.specs.Limits.{file_length};
ghost use Rattle.model.specs.Answers.{bit, timed, equalised, laid_out, ran, stopped, watched};
ghost use Rattle.packing.specs.Words.{file_word, run_word, packed, first_in};

use crate::words::refused;
use model::{Equalised, LaidOut, Ran, Refusal, Stopped, Watched};

// Where a file's time or total stands, and the flags of a run.
const SECOND: u64 = 1 << 24;

const OVERRAN: u64 = 1 << 56;

const SAVED: u64 = 1 << 57;

// A call that times or writes a file, or the watcher's: its two values.
fn pair(first: u64, second: u32) -> u64
    requires { first ≤ file_length }
    ensures { result ≡ first + 2 ^ 24 * second }
{
    first + SECOND * u64::from(second)
}

// A call that runs a file: its tick, and a flag.
fn flagged(tick: u32, flag: u64, raised: bool) -> u64
    requires { flag ≤ 2 ^ 57 }
    ensures { result ≡ tick + flag * bit raised }
{
    u64::from(tick) + flag * u64::from(raised)
}

pub fn time_word(x: Result<u32, Refusal>) -> u64
    ensures { result ≡ packed file_word (timed x) }
{
    x.map_or_else(refused, u64::from)
}

pub fn equalised_word(x: Result<Equalised, Refusal>) -> u64
    requires { first_in (equalised x) ≤ file_length }
    ensures { result ≡ packed file_word (equalised x) }
{
    x.map_or_else(refused, |y| pair(y.bytes as u64, y.time))
}

pub fn laid_word(x: Result<LaidOut, Refusal>) -> u64
    requires { first_in (laid_out x) ≤ file_length }
    ensures { result ≡ packed file_word (laid_out x) }
{
    x.map_or_else(refused, |y| pair(y.bytes as u64, y.total))
}

pub fn ran_word(x: Result<Ran, Refusal>) -> u64
    ensures { result ≡ packed run_word (ran x) }
{
    x.map_or_else(refused, |y| flagged(y.tick, OVERRAN, y.overran))
}

pub fn stopped_word(x: Result<Stopped, Refusal>) -> u64
    ensures { result ≡ packed run_word (stopped x) }
{
    x.map_or_else(refused, |y| flagged(y.tick, SAVED, y.saved))
}

pub fn watched_word(x: Result<Watched, Refusal>) -> u64
    ensures { result ≡ packed file_word (watched x) }
{
    x.map_or_else(refused, |y| pair(y.health as u64, y.left))
}
