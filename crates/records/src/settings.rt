// The settings in either form, decoded by value or refused.
ghost use Rattle.std.specs.Prelude.{◌≡◌, false, length};
ghost use Rattle.model.specs.Limits.{narrow_length, wide_length};
ghost use Rattle.model.specs.Settings.{narrow_settings, wide_settings, settings_of, out_of_range, bad_settings_length};
ghost use Rattle.records.specs.Decoded.{Decodes};

use crate::words::{half_at, word_at};
use model::limits::{MOST_MULTIPLY, MOST_TICKS, NARROW_LENGTH, WIDE_LENGTH};
use model::{Refusal, Settings};

fn bad_length(n: usize) -> bool
    ensures { result ≡ bad_settings_length n }
{
    (n != NARROW_LENGTH) & (n != WIDE_LENGTH)
}

// The numbers in 12 bytes of settings.
fn narrow_numbers(settings: &[u8]) -> Settings
    requires { length settings.now ≡ narrow_length }
    ensures { result ≡ narrow_settings settings.now }
{
    Settings {
        set: u32::from(settings[0]),
        read: u32::from(settings[1]),
        write: u32::from(settings[2]),
        beat: u32::from(settings[3]),
        save: u32::from(settings[4]),
        multiply: u32::from(settings[0]),
        spacing: u32::from(settings[5]),
        window: half_at(settings, 6),
        period: word_at(settings, 8),
    }
}

// The numbers in 24 bytes.
fn wide_numbers(settings: &[u8]) -> Settings
    requires { length settings.now ≡ wide_length }
    ensures { result ≡ wide_settings settings.now }
{
    Settings {
        set: half_at(settings, 0),
        read: half_at(settings, 2),
        write: half_at(settings, 4),
        beat: half_at(settings, 6),
        save: half_at(settings, 8),
        multiply: word_at(settings, 20),
        spacing: half_at(settings, 10),
        window: word_at(settings, 12),
        period: word_at(settings, 16),
    }
}

// The numbers in either form.
fn numbers(settings: &[u8]) -> Settings
    requires { bad_settings_length (length settings.now) ≡ false }
    ensures { result ≡ settings_of settings.now }
{
    if settings.len() == WIDE_LENGTH {
        return wide_numbers(settings);
    }
    narrow_numbers(settings)
}

// Whether a number is outside its range.
fn out_of_range(rack: Settings) -> bool
    ensures { result ≡ out_of_range rack }
{
    (rack.set == 0)
        | (rack.read == 0)
        | (rack.write == 0)
        | (rack.beat == 0)
        | (rack.save == 0)
        | (rack.multiply == 0)
        | (rack.spacing == 0)
        | (rack.window == 0)
        | (rack.period == 0)
        | (MOST_TICKS < rack.window)
        | (MOST_TICKS < rack.period)
        | (MOST_MULTIPLY < rack.multiply)
}

// Refusal 6, or the settings.
pub fn decode(settings: &[u8]) -> Result<Settings, Refusal>
    ensures { Decodes settings.now result }
{
    if bad_length(settings.len()) {
        return Err(Refusal::BadSettings);
    }
    let rack = numbers(settings);
    if out_of_range(rack) {
        return Err(Refusal::BadSettings);
    }
    Ok(rack)
}
