// The text of the grounds for a fact, by a rule file.

#![tactic(auto)]

ghost use Rattle.std.specs.Prelude.{◌≡◌, ◌≤◌, length};
ghost use Rattle.items.specs.Item.{narrow};
ghost use Rattle.panel_lines.specs.Text.{shown};
ghost use Rattle.grounds_text.specs.Text.{grounds_text, lines_room};

pub mod kept;

use kept::LINES_ROOM;

// Renders the steps that are kept for a fact, of the run in ascending order, into a lent buffer: a line for each. Answers the length of the text,
// which is at most LINES_ROOM, and writes the text exactly where it fits.
pub fn render(file: &[u8], fact: u32, out: &mut [u8]) -> usize
    ensures value { (result ≡ length (grounds_text file.now fact)) × (out.new ≡ shown (grounds_text file.now fact) out.old) }
    ensures upper_bound { result ≤ lines_room narrow }
{
    let mut room = [0u8; LINES_ROOM];
    let n = kept::put_text(file, fact, &mut room);
    panel_text::text::show(&room[..n], out)
}
