ghost use Rattle.lw_path.specs.PathText.{IsPath};

use crate::field::Field;
use lw_path::read_path;
use lw_world::Path;

impl Field for Path {
    ghost spells = { IsPath };

    fn read(text: &str) -> Option<Path> {
        read_path(text)
    }
}
