// The panel: reads a rule file from standard input and writes its text.

#![tactic(auto)]

use input::INPUT_ROOM;
use panel_text::text::TEXT_ROOM;
use std::io;

// Where the input cannot be read there is nothing to write.
fn main(rt: HostRuntime) -> io::Result<()> {
    let mut room = [0u8; INPUT_ROOM];
    let Ok(n) = input::read_input(&rt, &mut room) else {
        return Ok(());
    };
    let mut text = [0u8; TEXT_ROOM];
    let length = panel_text::render(&room[..n], &mut text);
    rt.stdout().write_all(&text[..length])
}
