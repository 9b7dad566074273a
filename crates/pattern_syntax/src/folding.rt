//! Sets of characters, closed under folding.

ghost use Rattle.std.specs.Prelude.{IfOk};
ghost use Rattle.regex_class.specs.Ranges.{HasExactly, in_ranges};
ghost use Rattle.pattern_syntax.specs.Sets.{with_alike};

use regex_class::Class;
use sd_base::NoMemory;

/// The set with all characters that have the simple case folding of a member. Refuses for want of memory alone.
pub fn folded(class: &Class) -> Result<Class, NoMemory>
    ensures { IfOk result (λ folded. HasExactly folded.ranges.items (with_alike (in_ranges class.now.ranges.items))) }
{
    let mut ranges = Vec::from_slice(*class.ranges.allocator(), &class.ranges)?;
    class.append_image(ucd_case::fold_pairs(), &mut ranges)?;
    Ok(Class::new(ranges)?)
}
