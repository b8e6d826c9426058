//! What holds of configurations beyond one call. Each law is the contract of a function that
//! does nothing.

ghost use Rattle.std.specs.Prelude.{◌≡◌, ◌↔◌, ◌+◌, ℕ, List, length, not, Some, None, Result};
ghost use Rattle.std.specs.List.{filter, flat_map, count_by};
ghost use Rattle.octets.specs.Place.{IsFirstPlace};
ghost use Rattle.map_rules.specs.declared.dmr.Dmr.{Dmr as DmrType};
ghost use Rattle.setup_tables.specs.declared.edge.EdgeLine.{EdgeLine as EdgeType};
ghost use Rattle.setup_tables.specs.declared.fault.SetupCause.TheVariants.{EdgeName, EdgeOverlap, EdgeOverDmr};
ghost use Rattle.setup_tables.specs.declared.fault.SetupFault.TheVariants.{Refused};
ghost use Rattle.mapt_setup.specs.Crowd.{has_name_of, is_crowded, is_over, edge_fault, AreApart};
ghost use Rattle.mapt_setup.specs.Beside.{IsFirstBeside};
ghost use Rattle.mapt_setup.specs.declared.setup.Setup.{Setup as SetupType};
ghost use Rattle.setup_tables.specs.declared.fault.SetupFault.{SetupFault as SetupFaultType};
ghost use Rattle.mapt_setup.specs.Setup.{setup_of};
ghost use Rattle.mapt_setup.specs.declared.capture.Capture.{Capture as CaptureType};
ghost use Rattle.mapt_setup.specs.declared.moves.MoveLine.{MoveLine as MoveType};
ghost use Rattle.mapt_setup.specs.declared.script.ScriptItem.{ScriptItem as ItemType};
ghost use Rattle.mapt_setup.specs.Script.{IsScript, is_still, segments_of};

/// Octets have at most one answer: what they set up, or the first fault.
pub fn octets_have_at_most_one_answer()
    ensures { (octets : List ℕ) (one other : Result SetupType SetupFaultType) → setup_of octets one → setup_of octets other → one ≡ other }
{}

/// Edges are refused beside one another exactly where two names are the same, a prefix is too long, or two
/// prefixes overlap, and the place is that of the first edge of which it is true.
pub fn refused_edges_are_the_first()
    ensures apart { (edges : List EdgeType) (dmr : DmrType) → (edge_fault edges dmr ≡ None) ↔ AreApart edges dmr }
    ensures name { (edges : List EdgeType) (dmr : DmrType) (i : ℕ)
        → edge_fault edges dmr ≡ Some (Refused EdgeName i)
        → IsFirstBeside has_name_of edges i }
    ensures overlap { (edges : List EdgeType) (dmr : DmrType) (i : ℕ)
        → edge_fault edges dmr ≡ Some (Refused EdgeOverlap i)
        → IsFirstBeside is_crowded edges i }
    ensures over_dmr { (edges : List EdgeType) (dmr : DmrType) (i : ℕ)
        → edge_fault edges dmr ≡ Some (Refused EdgeOverDmr i)
        → IsFirstPlace (is_over dmr) edges i }
{}

/// A setup's changes and captures have at most one script.
pub fn a_script_is_one()
    ensures { (changes : List MoveType) (captures : List CaptureType) (one other : List ItemType)
        → IsScript changes captures one
        → IsScript changes captures other
        → one ≡ other }
{}

/// There is one segment more than there are changes that aren't live, and the segments together have all items
/// but these.
pub fn still_changes_end_segments()
    ensures count { (items : List ItemType) → length (segments_of items) ≡ 1 + count_by is_still items }
    ensures items { (items : List ItemType)
        → flat_map (λ segment. segment) (segments_of items) ≡ filter (λ item. not (is_still item)) items }
{}
