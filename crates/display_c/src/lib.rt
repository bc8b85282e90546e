// The entry for the unit's display, which is written in C (docs/RULES.md, "The display"); include/display.h is its header.
// The archive exports this one function. What it does is `display`'s, and so is what its contract says.
#![tactic(auto)]

ghost use Rattle.frames.specs.Room.{Placed};
ghost use Rattle.district.specs.File.{display_answer};

// The answer lines of the file, each starting where the line before it ended; 0, and the room unchanged, where they do not fit.
#[unsafe(no_mangle)]
pub extern "C" fn display_answer(file: &[u8], room: &mut [u8]) -> usize
    ensures { Placed (display_answer file.now) room.old room.new result }
{
    display::display_answer(file, room)
}
