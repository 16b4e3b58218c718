//! What the order is, for every list of needs.
ghost use Rattle.element_order.specs.Laws.{AllOrders, OneOrder};

/// The order is that of the definition and no other; each element stands after all that it needs, and
/// all elements are placed exactly where none depends on itself.
pub fn order_law()
    ensures orders { AllOrders }
    ensures one { OneOrder }
{}
