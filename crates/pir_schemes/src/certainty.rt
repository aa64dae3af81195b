//! Whether retrievals are certain.

ghost use Rattle.std.specs.Prelude.{◌↔◌, IsTrue};
ghost use Rattle.pir_schemes.specs.Laws.{IsCertainOf};

use crate::scheme::Scheme;
use digit_pack::Layout;

/// Whether every retrieval on a layout is certain to give its record: whatever noise is drawn, its
/// sums stay below half of delta. For DoublePIR the rows of digits are summed as well as the
/// columns.
pub fn is_certain(scheme: Scheme, layout: &Layout) -> bool
    ensures { IsTrue result ↔ IsCertainOf scheme layout.now }
{
    let w = layout.width();
    let columns = noise_table::is_certain(w, layout.cols());
    match scheme {
        Scheme::Simple => columns,
        Scheme::Double => columns && noise_table::is_certain(w, layout.rows()),
    }
}
