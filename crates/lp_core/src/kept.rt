//! Items without those that add nothing.

ghost use Rattle.lp_core.specs.Kept.{is_kept};
ghost use Rattle.std.specs.List.{filter};
ghost use Rattle.std.specs.Prelude.{◌≡◌};

use lp_cert::Multipliers;

/// The items whose multiplier is positive.
pub fn without_zeros(items: &Multipliers) -> Multipliers
    ensures { result ≡ filter is_kept items.now }
{
    let mut kept = Multipliers::new();
    for i in 0..items.len() {
        let item = *items.get(i);
        if item.1 > 0 {
            kept.push(item);
        }
    }
    kept
}
