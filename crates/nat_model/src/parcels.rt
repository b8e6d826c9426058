//! Parcels that an answer frees. The laws are the contracts of functions that do nothing.

ghost use Rattle.std.specs.Prelude.{◌≡◌, ℕ, List};
ghost use Rattle.octets.specs.declared.parcel.Parcel.{Parcel};
ghost use Rattle.nat_model.specs.declared.entry.Entry.{Entry};
ghost use Rattle.nat_model.specs.declared.stripe.StripeEntry.{StripeEntry};
ghost use Rattle.nat_model.specs.History.{EdgeStart, IsGood};
ghost use Rattle.nat_model.specs.Machine.{nat};
ghost use Rattle.nat_model.specs.Parcels.{edge_log, stripe_log, Frees, HasWaited};
ghost use Rattle.nat_model.specs.State.{Generation};
ghost use Rattle.nat_model.specs.Stripe.{IsGoodStripe};

/// Law: in a good history of an edge, and of a stripe, a parcel that an answer frees is the later fragment of the entry at
/// the place that the parcel names: this stands before the answer's, asked about these octets under the key of the first
/// fragment that frees them, and was told to wait.
pub fn a_freed_parcel_is_a_fragment_that_waited()
    ensures edge { (start : EdgeStart) (books : List Generation) (entries : List Entry) (j a : ℕ) (p : Parcel)
        → IsGood nat start books entries
        → Frees edge_log entries j a p
        → HasWaited edge_log entries j p }
    ensures stripe { (entries : List StripeEntry) (j a : ℕ) (p : Parcel)
        → IsGoodStripe entries
        → Frees stripe_log entries j a p
        → HasWaited stripe_log entries j p }
{}

/// Law: in a good history no fragment is freed twice: two parcels that answers free and that name one place are the same
/// one, of the same answer.
pub fn a_fragment_is_freed_once()
    ensures edge { (start : EdgeStart) (books : List Generation) (entries : List Entry) (i a j b : ℕ) (p q : Parcel)
        → IsGood nat start books entries
        → Frees edge_log entries i a p
        → Frees edge_log entries j b q
        → p.place ≡ q.place
        → (i ≡ j) × (a ≡ b) }
    ensures stripe { (entries : List StripeEntry) (i a j b : ℕ) (p q : Parcel)
        → IsGoodStripe entries
        → Frees stripe_log entries i a p
        → Frees stripe_log entries j b q
        → p.place ≡ q.place
        → (i ≡ j) × (a ≡ b) }
{}
