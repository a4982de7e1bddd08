//! What a digest shows: a law, the contract of a function that does nothing.
ghost use Rattle.std.specs.Prelude.{◌≡◌, ◌≢◌, ◌⊎◌};
ghost use Rattle.fw_digest.specs.Digests.{IsCollision, IsWarehouse, digest_of, message};
ghost use Rattle.fw_snapshot.specs.History.{History};

use fw_entry_bytes::entries_have_one_spelling;

/// Equal warehouses have equal digests (`same`), so two digests that differ are of two warehouses that differ, in their currency or in an entry
/// (`other`). What is digested tells the currency and each entry (`message`). So warehouses whose digests are equal are equal themselves, or what is
/// digested of the two are two different messages with one SHA-256 (`equal`): nobody is known to have found such a pair, and no proof says that
/// there is none.
pub fn a_digest_is_of_all_entries()
    ensures same { (a b : History) → a ≡ b → digest_of a ≡ digest_of b }
    ensures other { (a b : History) → digest_of a ≢ digest_of b → a ≢ b }
    ensures message { (a b : History) → IsWarehouse a → IsWarehouse b
        → message a ≡ message b → a ≡ b }
    ensures equal { (a b : History) → IsWarehouse a → IsWarehouse b
        → digest_of a ≡ digest_of b → (a ≡ b) ⊎ IsCollision (message a) (message b) }
{
    entries_have_one_spelling();
}
