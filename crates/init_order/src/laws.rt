//! Laws of the definitions.

ghost use Rattle.init_order.specs.Order.{OneOrder};

/// There is one order at most in which steps are taken.
pub fn one_order()
    ensures { OneOrder }
{}
