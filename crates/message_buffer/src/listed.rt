ghost use Rattle.std.specs.Prelude.{◌≡◌, ◌<◌, length, replicate, slice_index};
ghost use Rattle.std.specs.Vec.{vec_capacity};
ghost use Rattle.value_order.specs.declared.TheConstants.{NOTHING};
ghost use Rattle.value_order.specs.Order.{meet_of};
ghost use Rattle.message_buffer.specs.Hands.{AreMirrorsOf};
ghost use Rattle.message_buffer.specs.Buffers.{meets_of};
ghost use Rattle.message_buffer.specs.Listed.{enlisted, IsCalm};

use value_order::{NOTHING, Order, meet};

/// Adds a mirror to the list of those with a value, where it had none before.
pub fn enlist(mirrors: &mut Vec<u32>, mirror: u32, before: u64)
    requires { before ≡ NOTHING → length mirrors.old.items < vec_capacity mirrors.old }
    ensures items { mirrors.new.items ≡ enlisted mirrors.old.items mirror before }
    ensures capacity { vec_capacity mirrors.new ≡ vec_capacity mirrors.old }
{
    if before == NOTHING {
        mirrors.push_reserved(mirror);
    }
}

/// What a mirror has in both classes together. Where nothing was posted in the tagged one, that isn't read.
pub fn value_of(order: Order, plain: &[u64], tagged: &[u64], has_tagged: bool, place: usize) -> u64
    requires place { place < length plain.now }
    requires same { length tagged.now ≡ length plain.now }
    requires calm { IsCalm has_tagged tagged.now }
    ensures { result ≡ meet_of order (slice_index plain.now place) (slice_index tagged.now place) }
{
    if has_tagged {
        meet(order, plain[place], tagged[place])
    } else {
        plain[place]
    }
}

/// No value for any mirror. The list has those with a value.
pub fn clear(values: &mut [u64], mirrors: &[u32])
    requires { AreMirrorsOf values.old mirrors.now }
    ensures { values.new ≡ replicate (length values.old) NOTHING }
{
    'clear: for mirror in mirrors {
        values[*mirror as usize] = NOTHING;
    }
}

/// Lowers each value by the other one of its mirror, and leaves no other value. The list has the mirrors with either.
/// Where there is no other value, none is read.
pub fn merge(
    order: Order,
    values: &mut [u64],
    others: &mut [u64],
    mirrors: &[u32],
    has_others: bool,
)
    requires same { length others.old ≡ length values.old }
    requires listed { AreMirrorsOf (meets_of order values.old others.old) mirrors.now }
    requires calm { IsCalm has_others others.old }
    ensures met { values.new ≡ meets_of order values.old others.old }
    ensures left { others.new ≡ replicate (length values.old) NOTHING }
{
    if has_others {
        merge_listed(order, values, others, mirrors);
    }
}

fn merge_listed(order: Order, values: &mut [u64], others: &mut [u64], mirrors: &[u32])
    requires same { length others.old ≡ length values.old }
    requires listed { AreMirrorsOf (meets_of order values.old others.old) mirrors.now }
    ensures met { values.new ≡ meets_of order values.old others.old }
    ensures left { others.new ≡ replicate (length values.old) NOTHING }
{
    'merge: for mirror in mirrors {
        let place = *mirror as usize;
        values[place] = meet(order, values[place], others[place]);
        others[place] = NOTHING;
    }
}
