//! Where volumes go.

ghost use Rattle.std.specs.Prelude.{◌≡◌, ◌++◌, ◌∷◌, [], ◌<◌, List, vec_capacity, vec_len, OnOk};
ghost use Rattle.lw_held.specs.History.{VolumeContent};

use lw_held::Volume;
use lw_stamp::NoMemory;
use std::alloc::Global;

/// Where the volumes of a run go, which keeps them to its end.
pub trait VolumeSink {
    /// What it keeps.
    ghost kept: { Self → List VolumeContent };

    /// That there is room for a volume more.
    ghost has_room: { Self → Type 0 };

    /// Makes room for a volume. Where that is refused no journal is cut.
    fn make_room(&mut self) -> Result<(), NoMemory>
        ensures kept { kept self.new ≡ kept self.old }
        ensures room { OnOk result (has_room self.new) };

    /// Keeps the volume behind the others.
    fn keep(&mut self, volume: Volume)
        requires { has_room self.old }
        ensures { kept self.new ≡ kept self.old ++ volume ∷ [] };

    /// The volumes that it keeps.
    fn volumes(&self) -> &[Volume]
        ensures { result.now ≡ kept self.now };
}

/// Keeps volumes in memory.
#[derive(Drop)]
pub(crate) struct Kept {
    volumes: Vec<Volume>,
}

impl Kept {
    /// Keeps no volume yet.
    pub(crate) fn new(alloc: Global) -> Kept
        ensures { result.volumes.items ≡ [] }
    {
        Kept {
            volumes: Vec::new(alloc),
        }
    }
}

impl VolumeSink for Kept {
    ghost kept = { λ sink. sink.volumes.items };

    ghost has_room = { λ sink. vec_len sink.volumes < vec_capacity sink.volumes };

    fn make_room(&mut self) -> Result<(), NoMemory> {
        self.volumes.reserve(1)?;
        Ok(())
    }

    fn keep(&mut self, volume: Volume) {
        self.volumes.push_reserved(volume);
    }

    fn volumes(&self) -> &[Volume] {
        self.volumes.as_slice()
    }
}
