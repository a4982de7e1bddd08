//! What holds of every event: a law, the contract of a function that does nothing.
ghost use Rattle.std.specs.Prelude.{◌≡◌, ℕ, List, Some};
ghost use Rattle.fw_snapshot.specs.History.{History};
ghost use Rattle.fw_group.specs.Laws.{IsAccepted};
ghost use Rattle.fw_group.specs.Steps.{Does, State, receipt_at};
ghost use Rattle.fw_group.specs.declared.answer.Receipt.{Receipt};
ghost use Rattle.fw_group.specs.declared.event.Event.{Event};
ghost use Rattle.fw_group.specs.declared.event.EventAnswer.{EventAnswer};

/// `Accepted` is true of the item that it answers: whatever receipt an event answers at a place is that of the item at this place in hand. Its front is
/// what is published then, and has the item's entry at the receipt's number.
pub fn what_is_accepted_stands_at_its_number()
    ensures { (s t : State) (answers : List EventAnswer) (event : Event) (a : EventAnswer)
        (place : ℕ) (r : Receipt History) → Does s answers event a t
        → receipt_at (Some a) place ≡ Some r → IsAccepted s place r t }
{}
