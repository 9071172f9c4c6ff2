// The text of a task's listing.
ghost use Rattle.std.specs.Prelude.{◌+◌, ◌*◌, ◌≡◌, length};
ghost use Rattle.model.specs.Answers.{row};
ghost use Rattle.model.specs.Records.{over};
ghost use Rattle.model.specs.Listing.{lines_text, listed, turned_down, printed, printed_text};
ghost use Rattle.listing.specs.Lines.{lines_in};
ghost use Rattle.text.specs.Pieces.{HasRoom, PutWithin};
ghost use Rattle.printing.specs.Rooms.{Room};

use listing::lines::line_at;
use listing::list_task;
use model::limits::{FILE_LENGTH, FILE_RECORDS};
use model::{Refusal, Row};
use text::Page;

fn put_refusal(page: &mut Page, x: Refusal)
    requires { HasRoom 64 page.old }
    ensures { PutWithin 64 (printed_text (turned_down (row x).0)) page.old page.new }
{
    page.put_text("refused ");
    page.put_number(Row::from(x).number as u32);
    page.put_text("\n");
}

// The lines of the first records.
fn put_lines(page: &mut Page, laid: &[u8], starts: &[u32], records: usize)
    requires { Room laid.now starts.now records page.old }
    ensures { PutWithin (64 * records) (lines_text (lines_in laid.now starts.now 0 records)) page.old page.new }
{
    for i in 0..records {
        if let Some(line) = line_at(laid, starts, i) {
            page.put_line(line);
        }
    }
}

// The lines, and the total after them.
fn put_listing(page: &mut Page, laid: &[u8], starts: &[u32], records: usize, total: u32)
    requires { Room laid.now starts.now records page.old }
    ensures { PutWithin (64 * records + 64) (printed_text (listed (lines_in laid.now starts.now 0 records) total))
        page.old page.new }
{
    put_lines(page, laid, starts, records);
    page.put_number(total);
    page.put_text(" end\n");
}

// What the list program prints for these settings and this task, put at the start of `out`, and how long it is.
pub fn render(settings: &[u8], task: &[u8], out: &mut [u8; 349568]) -> usize
    ensures { (result ≡ length (printed_text (printed settings.now task.now)))
        × (out.new ≡ over (printed_text (printed settings.now task.now)) out.old) }
{
    let mut laid: [u8; FILE_LENGTH] = [0; FILE_LENGTH];
    let mut starts: [u32; FILE_RECORDS] = [0; FILE_RECORDS];
    let mut page = Page::new(out);
    match list_task(settings, task, &mut laid, &mut starts) {
        Ok(done) => put_listing(&mut page, &laid, &starts, done.bytes / 12, done.total),
        Err(x) => put_refusal(&mut page, x),
    }
    page.len
}
