ghost use Rattle.law_theorem.specs.CarriedOrder.{CarryingIsOneToOne, CarryingKeepsOrder};
ghost use Rattle.law_theorem.specs.CarriedOrder.{SetsStaySorted};
ghost use Rattle.law_theorem.specs.CarriedSorts.{BackUndoesCarrying, CarriedValuesHaveSorts};
ghost use Rattle.law_theorem.specs.CarriedSorts.{CarryingIsOnto};

/// On the values of one type carrying keeps the order.
pub fn carrying_keeps_order()
    ensures { CarryingKeepsOrder }
{}

/// On the values of one type carrying is one to one, and the test of equality agrees.
pub fn carrying_is_one_to_one()
    ensures { CarryingIsOneToOne }
{}

/// A set, whose elements ascend, is carried to a set whose elements ascend.
pub fn sets_stay_sorted()
    ensures { SetsStaySorted }
{}

/// Carried values have the sort of their type.
pub fn carried_values_have_sorts()
    ensures { CarriedValuesHaveSorts }
{}

/// A script's value of the type's sort is a value of the type that is carried.
pub fn carrying_is_onto()
    ensures { CarryingIsOnto }
{}

/// What is carried comes back.
pub fn back_undoes_carrying()
    ensures { BackUndoesCarrying }
{}
