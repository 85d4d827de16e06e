// Whether sixteen bytes are an order of a pot's balls: each ball once, and 255 from there on.
#![tactic(auto)]

ghost use Rattle.std.specs.Prelude.{◌≡◌, ◌<◌, ◌≤◌, Decides};
ghost use Rattle.orders.specs.Orders.{Follows, OrderOf, all_in_place, is_order};

// Whether a byte may stand behind those before it: a ball of the pot that is none of them, or 255 behind the last ball.
// The bytes are those of an S, in which 255 marks that no ball comes.
fn may_follow(before: &[u8], byte: u8, balls: u8) -> bool
    ensures { Decides result (Follows balls before.now byte) }
{
    if before.len() < usize::from(balls) {
        // not `contains`, which is a call made for long slices
        byte < balls && !before.iter().any(|&earlier| earlier == byte)
    } else {
        byte == 255
    }
}

// Whether each byte is in its place. That makes them an order where there are at most 16 balls. The bytes come from a
// record and the number from a shape, so they stay two arguments.
pub fn all_in_place(order: &[u8; 16], balls: u8) -> bool
    ensures test { result ≡ all_in_place balls order.now }
    ensures exact { balls ≤ 16 → Decides result (OrderOf balls order.now) }
{
    order
        .iter()
        .enumerate()
        .all(|(place, &byte)| may_follow(&order[..place], byte, balls))
}

// Whether the bytes are an order of so many balls; of more than 16 they never are.
pub fn is_order(order: &[u8; 16], balls: u8) -> bool
    ensures test { result ≡ is_order balls order.now }
    ensures exact { Decides result ((balls ≤ 16) × OrderOf balls order.now) }
{
    balls <= 16 && all_in_place(order, balls)
}
