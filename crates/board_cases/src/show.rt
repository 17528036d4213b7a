// A board as a line: its images, each with how it stands and its share.
use board::{Applied, Board};
use std::io;

// The refusal, or the board.
pub(crate) fn applied(rt: &impl Print, a: Applied) -> io::Result<()> {
    match a.answer {
        Ok(()) => images(rt, &a.board)?,
        Err(refusal) => print!(rt; "refused {}", u8::from(refusal))?,
    }
    println!(rt)
}

fn images(rt: &impl Print, b: &Board) -> io::Result<()> {
    print!(rt; "board")?;
    for p in b.places.iter().take(b.count) {
        print!(rt; " {} {}", p.image, p.stand)?;
    }
    Ok(())
}
