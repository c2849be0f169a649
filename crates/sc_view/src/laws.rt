//! Laws of the order on views, for all views.
ghost use Rattle.std.specs.Prelude.{◌≡◌, ℕ, ◌∷◌, [], max};
ghost use Rattle.std.specs.FinMap as fin;
ghost use Rattle.sc_view.specs.Views.{ViewMap, put, merge, newest, number_at, IsCoveredBy, Agree};
ghost use Rattle.sc_view.specs.declared.view.Stored.{Stored};

/// A merge has for each node the entry with the larger number, the first view's at equal ones. To learn one value is to
/// merge the view of that value alone.
pub fn merge_has_the_newest()
    ensures merge { (v w : ViewMap) (id : ℕ) → fin.get (merge v w) id ≡ newest (fin.get v id) (fin.get w id) }
    ensures put { (v : ViewMap) (id : ℕ) (e : Stored) → put v id e ≡ merge v (fin.from_entries ((id, e) ∷ [])) }
{}

/// A merge has for each node the larger of the two numbers.
pub fn merge_takes_the_larger_number()
    ensures { (v w : ViewMap) (id : ℕ) → number_at (merge v w) id ≡ max (number_at v id) (number_at w id) }
{}

/// A merge is the least view above both: above the second, where the two have equal values at equal numbers.
pub fn merge_is_least_upper_bound()
    ensures above_first { (v w : ViewMap) → IsCoveredBy v (merge v w) }
    ensures above_second { (v w : ViewMap) → Agree v w → IsCoveredBy w (merge v w) }
    ensures least { (u v w : ViewMap) → IsCoveredBy v u → IsCoveredBy w u → IsCoveredBy (merge v w) u }
{}

/// The order on views is a partial order.
pub fn order_is_partial()
    ensures reflexive { (v : ViewMap) → IsCoveredBy v v }
    ensures transitive { (u v w : ViewMap) → IsCoveredBy u v → IsCoveredBy v w → IsCoveredBy u w }
    ensures antisymmetric { (v w : ViewMap) → IsCoveredBy v w → IsCoveredBy w v → v ≡ w }
{}

/// To merge a view with itself, or twice with another, changes nothing more.
pub fn merge_is_idempotent()
    ensures same { (v : ViewMap) → merge v v ≡ v }
    ensures again { (v w : ViewMap) → merge (merge v w) w ≡ merge v w }
{}
