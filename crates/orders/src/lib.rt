// The order that the hosts carry, its bytes, and the two rule sets.
#![tactic(auto)]

ghost use Rattle.std.specs.Prelude.{◌≡◌, length};
ghost use Rattle.orders.specs.Orders.{kind_of, image_of, share_of, share_fits, same_order, order_of, order_bytes, is_kind, size_of, is_share, wrong_size, wrong_value};
ghost use Rattle.orders.specs.Rules.{is_rules, hop_fits};

#[derive(Clone, Copy, Debug, PartialEq, Eq)]
pub enum Order {
    Publish { image: u32, share: u8 },
    Halt(u32),
    Resume(u32),
    Withdraw(u32),
}

// The blank order, which stands in unused places: its share is out of range, so no host holds it.
pub const BLANK: Order = Order::Publish { image: 0, share: 0 };

// A kind stays a number: it is the message's byte and C's, and `kind_of` and `order_of` say which.
pub fn kind(order: Order) -> u8
    ensures { result ≡ kind_of order }
{
    match order {
        Order::Publish { .. } => 1,
        Order::Halt(_) => 2,
        Order::Resume(_) => 3,
        Order::Withdraw(_) => 4,
    }
}

pub fn image(order: Order) -> u32
    ensures { result ≡ image_of order }
{
    match order {
        Order::Publish { image, .. }
        | Order::Halt(image)
        | Order::Resume(image)
        | Order::Withdraw(image) => image,
    }
}

// The share of a publish; 0 of any other order.
pub fn share(order: Order) -> u8
    ensures { result ≡ share_of order }
{
    match order {
        Order::Publish { share, .. } => share,
        Order::Halt(_) | Order::Resume(_) | Order::Withdraw(_) => 0,
    }
}

// Whether a publish has a share of 1..100; any other order has none to be out of range.
pub fn share_fits(order: Order) -> bool
    ensures { result ≡ share_fits order }
{
    kind(order) != 1 || is_share(share(order))
}

// Whether two orders are the same one: kind, image and share.
pub fn same(a: Order, b: Order) -> bool
    ensures { result ≡ same_order a b }
{
    a == b
}

// The order of a kind; the blank order of a kind that there is not.
pub fn order_of(kind: u8, image: u32, share: u8) -> Order
    ensures { result ≡ order_of kind image share }
{
    match kind {
        1 => Order::Publish { image, share },
        2 => Order::Halt(image),
        3 => Order::Resume(image),
        4 => Order::Withdraw(image),
        _ => BLANK,
    }
}

// How many bytes the order has: 6 for a publish, 5 for any other.
pub fn size(order: Order) -> usize
    ensures { result ≡ length (order_bytes order) }
{
    size_of(kind(order))
}

// Whether no order of this kind has so many bytes: no kind has, or its own has another number.
pub fn wrong_size(kind: u8, bytes: usize) -> bool
    ensures { result ≡ wrong_size kind bytes }
{
    !matches!(bytes, 5 | 6) || is_kind(kind) && bytes != size_of(kind)
}

// Whether there is no such kind, or a publish has no such share.
pub fn wrong_value(kind: u8, share: u8) -> bool
    ensures { result ≡ wrong_value kind share }
{
    !is_kind(kind) || kind == 1 && !is_share(share)
}

// Whether there is such a rule set. It stays a number: a caller may name any, and 23 refuses what is neither.
pub fn is_rules(rules: u8) -> bool
    ensures { result ≡ is_rules rules }
{
    matches!(rules, 1 | 2)
}

// Whether a copy can have this hop: 1..8 under the second rules, 0 under the first.
pub fn hop_fits(rules: u8, hop: u8) -> bool
    ensures { result ≡ hop_fits rules hop }
{
    match rules {
        2 => (1..=8).contains(&hop),
        _ => hop == 0,
    }
}

fn is_kind(kind: u8) -> bool
    ensures { result ≡ is_kind kind }
{
    (1..=4).contains(&kind)
}

fn is_share(share: u8) -> bool
    ensures { result ≡ is_share share }
{
    (1..=100).contains(&share)
}

fn size_of(kind: u8) -> usize
    ensures { result ≡ size_of kind }
{
    if kind == 1 { 6 } else { 5 }
}
