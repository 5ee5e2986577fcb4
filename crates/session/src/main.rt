// A worked session in one hall: a curator prewrites two labels, a visitor reads and is told who holds the key, for what and how long, the
// commit, the bones that a row shows, a page, a removal that is withdrawn, a second box that is filled from the hall's image, and a season that
// fills the box and is collected. Each line says who asks for what, and then what the box answered. The hall's box lives here.
#![tactic(auto)]

mod copying;
mod curators;
mod season;

use copying::copies_hall;
use curators::{commits, prewrites, withdraws};
use season::passes_season;
use visits::{Hall, asks_bones, asks_figures, asks_key, asks_page, new_hall, say_effort};

// Two labels come. Keys, rows and batches are document 01's: a key is table 1 and a name; the jaw's row has one integer, its layer, the rib's
// has none, and each has one text. Of the jaw's nine bones those with the numbers 0, 2, 3 and 8 are shown (02, CR 4); the rib's row has none.
fn two_labels(rt: &impl Print, hall: &mut Hall, jaw: &[u8]) {
    let labels =
        b"\x00\x02\x07\x00\x00\x00\x01jaw\x01\x22\x01\x00\x00\x00\x00\x00\x00\x00\x02\x01\x14lower jaw, left half\x09\x0d\x01\x07\x00\x00\x00\x01rib\x01\x14\x00\x01\x10third rib, right\x00";
    prewrites(rt, hall, 7, 10, jaw, labels);
    asks_key(rt, hall, jaw, 12);
    asks_key(rt, hall, jaw, 9);
    let keys = b"\x00\x02\x07\x00\x00\x00\x01jaw\x07\x00\x00\x00\x01rib";
    commits(rt, hall, 7, 10, 15, keys);
    asks_key(rt, hall, jaw, 12);
}

// The jaw is to be removed, and that is withdrawn: its label is seen again, behind the Rollback, and the removal can no longer be committed.
fn withdrawn_removal(rt: &impl Print, hall: &mut Hall, jaw: &[u8]) {
    let removal = b"\x00\x01\x07\x00\x00\x00\x01jaw\x02";
    prewrites(rt, hall, 8, 20, jaw, removal);
    asks_key(rt, hall, jaw, 25);
    withdraws(rt, hall, 8, 20, jaw);
    let reading = asks_key(rt, hall, jaw, 25);
    say_effort(rt, jaw, 25, reading.count);
    commits(rt, hall, 8, 20, 30, b"\x00\x01\x07\x00\x00\x00\x01jaw");
}

fn main(rt: HostRuntime) {
    let mut hall = new_hall();
    let jaw = b"\x00\x00\x00\x01jaw";
    asks_figures(&rt, &hall, b"the hall opens: ");
    two_labels(&rt, &mut hall, jaw);
    let reading = asks_key(&rt, &hall, jaw, 16);
    asks_bones(&rt, &hall.area, reading);
    asks_page(&rt, &hall, 16);
    withdrawn_removal(&rt, &mut hall, jaw);
    asks_figures(&rt, &hall, b"after that: ");
    copies_hall(&rt, &hall, 1, jaw);
    passes_season(&rt, &mut hall, jaw);
}
