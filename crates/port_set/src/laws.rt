ghost use Rattle.std.specs.Prelude.{◌≡◌, ℕ, ◌-◌, ◌+◌, ◌^◌, ◌<◌, ◌≤◌, IsTrue, Some, ◌⊎◌};
ghost use Rattle.port_set.specs.PortSet.{in_set, rank_of, claimable_count, count_below, begins_run, IsRun, run_count};

/// Law: sets of one offset and PSID length have no port in common unless their PSIDs are equal, and a
/// set of no PSID bits has the one PSID 0.
pub fn sets_are_disjoint()
    ensures { (a k v w x : ℕ)
        → v < 2 ^ k → w < 2 ^ k → IsTrue (in_set a k v x) → IsTrue (in_set a k w x) → v ≡ w }
{}

/// Law: the sets of one offset and PSID length together have each port but those that the offset leaves
/// out, which are those below 2^(16 - a) where there are offset bits and PSID bits.
pub fn sets_cover_the_ports()
    ensures { (a k x : ℕ)
        → (a ≡ 0) ⊎ (2 ^ (16 - a) ≤ x)
        → (v : ℕ) × (v < 2 ^ k) × IsTrue (in_set a k v x) }
{}

/// Law: the rank of a claimable port is below the number of claimable ports.
pub fn ranks_are_below_the_count()
    ensures { (a k v x i : ℕ) → x < 65536 → rank_of a k v x ≡ Some i → i < claimable_count a k v }
{}

/// Law: ranks rise with the ports, so two claimable ports of one rank are one port.
pub fn ranks_rise()
    ensures { (a k v x y i j : ℕ) → rank_of a k v x ≡ Some i → rank_of a k v y ≡ Some j → x < y → i < j }
{}

/// Law: each port of a set is in one of its runs.
pub fn runs_cover_the_set()
    ensures { (a k v x : ℕ)
        → x < 65536
        → IsTrue (in_set a k v x)
        → (first : ℕ)
        × (last : ℕ)
        × IsRun (in_set a k v) first last
        × (first ≤ x)
        × (x ≤ last)
        × (last < 65536)
        × (count_below (begins_run (in_set a k v)) first < run_count a k v) }
{}

/// Law: a run is told by its number, which is how many runs begin before it.
pub fn runs_are_told_by_number()
    ensures { (a k v first last other end : ℕ)
        → IsRun (in_set a k v) first last
        → IsRun (in_set a k v) other end
        → last < 65536
        → end < 65536
        → count_below (begins_run (in_set a k v)) first ≡ count_below (begins_run (in_set a k v)) other
        → (first ≡ other) × (last ≡ end) }
{}

/// Law: of two runs the one that begins first ends before the other begins, with a port between them
/// that isn't in the set.
pub fn runs_rise()
    ensures { (a k v first last other end : ℕ)
        → IsRun (in_set a k v) first last
        → IsRun (in_set a k v) other end
        → end < 65536
        → first < other
        → last + 1 < other }
{}
