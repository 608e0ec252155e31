//! Journals that are cut.

ghost use Rattle.std.specs.Prelude.{◌≡◌, ◌<◌, length};
ghost use Rattle.lw_held.specs.Shelves.{AreInOrder};
ghost use Rattle.lw_serve.specs.inner.Volumes.{AreOfNodes};

use crate::sink::VolumeSink;
use lw_held::Shelf;
use std::sync::Wait;

/// Cuts all journals, or those that are due, and hands the volumes to the sink. What is refused stays due.
pub(crate) fn cut_journals<R: Wait, S: VolumeSink>(
    rt: &R,
    shelves: &[Shelf],
    all: bool,
    due: &mut [bool],
    sink: &mut S,
)
    requires in_order { AreInOrder shelves.now }
    requires each { length due.old ≡ length shelves.now }
    requires kept { AreOfNodes (length shelves.now) (S.kept sink.old) }
    ensures each { length due.new ≡ length due.old }
    ensures kept { AreOfNodes (length shelves.now) (S.kept sink.new) }
{
    for place in 0..shelves.len() {
        if all || due[place] {
            due[place] = !is_cut(rt, shelves, place, sink);
        }
    }
}

/// Cuts the journal of the shelf at the place, and hands the volume to the sink, if there is one. It tells whether there
/// was room in the sink and memory for the cut.
fn is_cut<R: Wait, S: VolumeSink>(rt: &R, shelves: &[Shelf], place: usize, sink: &mut S) -> bool
    requires within { place < length shelves.now }
    requires in_order { AreInOrder shelves.now }
    requires kept { AreOfNodes (length shelves.now) (S.kept sink.old) }
    ensures { AreOfNodes (length shelves.now) (S.kept sink.new) }
{
    // Room comes first, so that no volume is lost.
    let Ok(()) = sink.make_room() else {
        return false;
    };
    let shelf = &shelves[place];
    match shelf.cut(rt) {
        Err(_) => false,
        Ok(None) => true,
        Ok(Some(volume)) => {
            // A shelf with a node of another number does not settle in any case.
            if volume.node() == shelf.number() {
                sink.keep(volume);
            }
            true
        }
    }
}
