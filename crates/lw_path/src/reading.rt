ghost use Rattle.std.specs.Prelude.{IfSome, IfNone};
ghost use Rattle.lw_path.specs.PathText.{IsPath, IsSteps};
ghost use Rattle.lw_reg.specs.Path.{path_numbers};
ghost use Rattle.lw_reg.specs.declared.path.Path.{Path as Paths};

use crate::steps::{Four, Part, Slashed, Step, Three, Two};
use lw_reg::Path;

/// The path that the text spells.
pub fn read_path(text: &str) -> Option<Path>
    ensures found { IfSome result (λ path. IsPath path text.now) }
    ensures none { IfNone result ((path : Paths) → ¬ IsPath path text.now) }
{
    steps(text.strip_prefix('/')?)
}

fn steps(text: &str) -> Option<Path>
    ensures found { IfSome result (λ path. IsSteps (path_numbers path) text.now) }
    ensures none { IfNone result ((path : Paths) → ¬ IsSteps (path_numbers path) text.now) }
{
    if let Some(Step(a)) = Step::read(text) {
        return Path::new(&[a]);
    }
    if let Some(Slashed(Step(a), Step(b))) = Two::read(text) {
        return Path::new(&[a, b]);
    }
    if let Some(Slashed(Step(a), Slashed(Step(b), Step(c)))) = Three::read(text) {
        return Path::new(&[a, b, c]);
    }
    let Slashed(Step(a), Slashed(Step(b), Slashed(Step(c), Step(d)))) = Four::read(text)?;
    Path::new(&[a, b, c, d])
}
