// Images as bytes: the last one that a run holds, written to a lent buffer, one that is read, and whether it can be taken up.
ghost use Rattle.std.specs.Prelude.{◌≡◌, length};
ghost use Rattle.model.specs.Limits.{image_length};
ghost use Rattle.model.specs.Stopping.{image_bytes, image_of};
ghost use Rattle.model.specs.Replies.{after_save};
ghost use Rattle.stepping.specs.Machines.{held, pictured};
ghost use Rattle.stepping.specs.Buffers.{StoredImage};

use crate::buffers::{load_words, store_words};
use crate::store::{Image, Store};
use model::limits::VARIABLES;
use records::kinds;
use records::words::{put_word, word_at};

impl Image {
    // The image in bytes.
    pub fn read(bytes: &[u8]) -> Image
        requires { length bytes.now ≡ image_length }
        ensures { pictured result ≡ image_of bytes.now }
    {
        let mut variables: [u32; VARIABLES] = [0; VARIABLES];
        load_words(&bytes[8..], &mut variables);
        Image {
            index: word_at(bytes, 0),
            tick: word_at(bytes, 4),
            variables,
        }
    }

    // Its bytes, over a buffer.
    fn write(&self, bytes: &mut [u8])
        requires { length bytes.old ≡ image_length }
        ensures { bytes.new ≡ image_bytes (pictured self.now) }
    {
        put_word(bytes, self.index);
        put_word(&mut bytes[4..], self.tick);
        store_words(&self.variables, &mut bytes[8..]);
    }
}

impl Store {
    // The image that is held, if there is one, over a buffer.
    pub fn leave_image(&self, image: &mut [u8]) -> bool
        requires { length image.old ≡ image_length }
        ensures { StoredImage (held self.now).image image.old image.new result }
    {
        match &self.image {
            None => false,
            Some(m) => {
                m.write(image);
                true
            }
        }
    }
}

// Whether the record before that index is a SAVE. The first test of the length keeps 12 * i in range.
pub fn after_save(file: &[u8], index: usize) -> bool
    ensures { result ≡ after_save file.now index }
{
    if index == 0 {
        return false;
    }
    let i = index - 1;
    if file.len() / 12 < i {
        return false;
    }
    if file.len() <= 12 * i {
        return false;
    }
    file[12 * i] == kinds::SAVE
}
