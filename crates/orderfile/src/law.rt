//! A law of orders: what holds of their pairs, whatever is called.

ghost use Rattle.orderfile.specs.Loading.{StateGreatest};

/// What an order's pairs state of two blocks is the greatest cost that they name for them, wherever
/// it stands among them: one of them names it, and none names a greater.
///
/// This does nothing: it is here for what it states.
pub fn pairs_state_greatest()
    ensures { StateGreatest }
{}
