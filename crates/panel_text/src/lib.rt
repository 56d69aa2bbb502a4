// The panel's text for a rule file.

#![tactic(auto)]

ghost use Rattle.std.specs.Prelude.{◌≡◌, ◌≤◌, length};
ghost use Rattle.panel_lines.specs.Text.{panel_text, shown, text_room};
ghost use Rattle.items.specs.Item.{narrow};

pub mod lines;
pub mod order;
pub mod text;

use text::TEXT_ROOM;

// Renders the text for a file, run in ascending order, into a lent buffer. Answers the length of the text, which is at
// most TEXT_ROOM, and writes the text exactly where it fits.
pub fn render(file: &[u8], out: &mut [u8]) -> usize
    ensures value { (result ≡ length (panel_text file.now)) × (out.new ≡ shown (panel_text file.now) out.old) }
    ensures upper_bound { result ≤ text_room narrow }
{
    let mut room = [0u8; TEXT_ROOM];
    let n = text::put_text(file, &mut room);
    text::show(&room[..n], out)
}
