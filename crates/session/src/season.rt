// A season in the hall: the labels of two bones are written anew, over and over, until the box is full. What is older than a moment of the season is
// collected; then the next edition has room, that moment shows what it showed, and those before it are gone.
ghost use Rattle.std.specs.Prelude.{◌≡◌};

use mvcc::Refusal;
use visits::{Hall, asks_figures, asks_key, say_answer, say_refusal};

// An edition of both labels, in one step, committed at one above its start. The digit, the last of the edition's number, ends each label.
fn edition(hall: &mut Hall, start: u64, number: u64) -> Result<(), Refusal> {
    let mut labels =
        *b"\x00\x02\x07\x00\x00\x00\x01jaw\x01\x18\x00\x01\x14lower jaw, edition 0\x00\x07\x00\x00\x00\x01rib\x01\x18\x00\x01\x14third rib, edition 0\x00";
    let digit = b'0' + (number % 10) as u8;
    labels[34] = digit;
    labels[68] = digit;
    mvcc::commit_batch(
        &mut hall.store,
        &mut hall.area,
        9,
        start,
        start.wrapping_add(1),
        &labels,
    )?;
    Ok(())
}

// Editions, each two moments after the one before, until one is refused.
fn editions(rt: &impl Print, hall: &mut Hall) {
    for number in 0..1024 {
        if let Err(refusal) = edition(hall, 100 + 2 * number, number) {
            let _ = print!(rt; "{number} editions, then ");
            say_refusal(rt, refusal);
            return;
        }
    }
}

// "Collect up to a floor F": the store is another one, the area is as it was.
fn collects(rt: &impl Print, hall: &mut Hall, floor: u64)
    ensures { hall.new.area ≡ hall.old.area }
{
    let _ = print!(rt; "what is older is collected, up to {floor}: ");
    say_answer(rt, mvcc::collect(&mut hall.store, &hall.area, floor));
}

fn writes_again(rt: &impl Print, hall: &mut Hall, start: u64) {
    let _ = print!(rt; "curator 9 writes the two labels once more, starting at {start}: ");
    say_answer(rt, edition(hall, start, 0));
}

pub fn passes_season(rt: &impl Print, hall: &mut Hall, jaw: &[u8]) {
    let _ = print!(rt; "curator 9 writes the jaw and the rib anew, over and over: ");
    editions(rt, hall);
    asks_figures(rt, hall, b"the box is full: ");
    asks_key(rt, hall, jaw, 1000);
    collects(rt, hall, 1000);
    asks_figures(rt, hall, b"what is left: ");
    writes_again(rt, hall, 2000);
    asks_key(rt, hall, jaw, 1000);
    asks_key(rt, hall, jaw, 999);
}
