ghost use Rattle.std.specs.Prelude.{◌≡◌, ◌↔◌, IsTrue};
ghost use Rattle.value_order.specs.Order.{meet_of, height_of, Below};

/// How the values of a query are compared. Values fall in this order while a query is solved.
#[derive(Clone, Copy, Debug, PartialEq, Eq)]
pub enum Order {
    /// Values are numbers: a smaller one lies below a larger one.
    Least,
    /// Values are sets of bits: one that lacks bits lies below one that has them.
    Mask,
}

/// The greatest value that lies below both: the smaller one for `Least`, the bits that both have for
/// `Mask`. `NOTHING` is its neutral value.
pub fn meet(o: Order, a: u64, b: u64) -> u64
    ensures { result ≡ meet_of o a b }
{
    match o {
        Order::Least => a.min(b),
        Order::Mask => a & b,
    }
}

/// Whether `a` lies below `b`, or is `b`: it is at most `b` for `Least`, and has no bit that `b` lacks
/// for `Mask`. So it says whether `meet(o, a, b)` is `a`.
pub fn below(o: Order, a: u64, b: u64) -> bool
    ensures below { IsTrue result ↔ Below o a b }
    ensures meet { IsTrue result ↔ (meet_of o a b ≡ a) }
{
    match o {
        Order::Least => a <= b,
        Order::Mask => a & b == a,
    }
}

/// How often a value can fall that starts at `top`: `top` times for `Least`, and once for each of its
/// one bits for `Mask`. A strictly falling list that starts at `top` has at most one member more.
pub fn height(o: Order, top: u64) -> u64
    ensures { result ≡ height_of o top }
{
    match o {
        Order::Least => top,
        Order::Mask => u64::from(top.count_ones()),
    }
}
