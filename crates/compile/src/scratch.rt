// The scratches of a compile.
ghost use Rattle.std.specs.Prelude.{◌≡◌, length, replicate};
ghost use Rattle.facts.specs.Most.{no_counts};
ghost use Rattle.facts.specs.Touched.{untouched};

use facts::kind::Kind;
use facts::most::Counts;
use facts::touched::{Touched, Touches};

// Leaves start facts throughout both.
pub(crate) fn clear(touched: &mut [Touches], most: &mut [Counts])
    ensures touched { touched.new ≡ replicate (length touched.old) untouched }
    ensures most { most.new ≡ replicate (length most.old) no_counts }
{
    touched.fill(Touched.start());
    most.fill(Counts {
        emits: 0,
        direct: 0,
    });
}
