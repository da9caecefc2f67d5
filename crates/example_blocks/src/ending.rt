// Bytes at the end of a region.
ghost use Rattle.std.specs.Prelude.{◌≡◌, ◌-◌, ◌≤◌, ◌++◌, length, take, min};

use arena_region::Region;

/// Writes bytes at the end of a region. No more of the region is made ready than they need.
pub fn put_last(region: &mut Region, list: &[u8])
    requires { length list.now ≤ length region.old.items }
    ensures items { let kept = length region.old.items - length list.now in
        region.new.items ≡ take kept region.old.items ++ list.now }
    ensures low { region.new.low ≡ min region.old.low (length region.old.items - length list.now) }
{
    let from = region.len() - list.len();
    region.make_ready(from);
    region.part_mut(from, list.len()).copy_from_slice(list);
}
