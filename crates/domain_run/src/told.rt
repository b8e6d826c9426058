//! What a trace tells of histories: each entry with who asked and what was answered, where freed parcels stand by their places alone.
ghost use Rattle.std.specs.Prelude.{◌≡◌, List, [], map, IsTrue, IfOk};
ghost use Rattle.std.specs.List.{list_all};
ghost use Rattle.octets.specs.declared.parcel.Parcel.{Parcel as ParcelType};
ghost use Rattle.frag_table.specs.declared.answer.FragAnswer.TheVariants.{Known, Released};
ghost use Rattle.nat_model.specs.declared.answer.Answer.TheVariants.{Out, Turn, In, Kept};
ghost use Rattle.nat_model.specs.Stripe.{IsGoodStripe};
ghost use Rattle.edge_core.specs.Shown.{EdgeShown, StripeShown};
ghost use Rattle.domain_core.specs.declared.history.EdgeHistory.{EdgeHistory as EdgeHistoryType};
ghost use Rattle.domain_core.specs.declared.history.StripeHistory.{StripeHistory as StripeHistoryType};
ghost use Rattle.domain_core.specs.Form.{
  is_parcel_written,
  are_parcels_written,
  is_answer_written,
  is_told_written,
  is_edge_note_written,
  is_edge_written,
  is_stripe_note_written,
  is_stripe_written,
};
ghost use Rattle.journeys.specs.OneThread.{place_alone, places_alone, edge_note, told_alone, stripe_note};

use domain_core::{
    EdgeHistories, EdgeHistory, EdgeNote, EdgeNotes, StripeHistories, StripeHistory, StripeNote,
    StripeNotes,
};
use edge_core::{EdgeState, StripeState};
use frag_table::{FragAnswer, each_fragment_has_an_answer_of_its_kind};
use l4_headers::Ports;
use nat_model::{Answer, Entry, Mark, StripeEntry, Who};
use octets::{Addr4, Addr6, Bytes, NoMemory, Parcel, Parcels};
use std::alloc::Global;

/// A parcel at this place, without octets.
fn place_of(alloc: Global, place: u64) -> Parcel
    ensures place { result.place ≡ place }
    ensures bytes { result.bytes ≡ [] }
    ensures form { IsTrue (is_parcel_written result) }
{
    Parcel {
        place,
        bytes: Bytes::new(alloc),
    }
}

/// The parcels by their places alone.
fn places_of(alloc: Global, parcels: &[Parcel]) -> Result<Parcels, NoMemory>
    ensures told { IfOk result (λ places. places ≡ map place_alone parcels.now) }
    ensures form { IfOk result (λ places. IsTrue (are_parcels_written places)) }
{
    let mut places = Parcels::new(alloc);
    for parcel in parcels {
        places.push(place_of(alloc, parcel.place))?;
    }
    Ok(places)
}

/// The answer to what goes out. It has a form where what it frees has one.
fn out(from: Addr4, port: u16, src6: Addr6, dst6: Addr6, freed: Parcels) -> Answer
    requires freed { IsTrue (are_parcels_written freed) }
    ensures told { result ≡ Out from port src6 dst6 freed }
    ensures form { IsTrue (is_answer_written result) }
{
    Answer::Out {
        from,
        port,
        src6,
        dst6,
        freed,
    }
}

/// The answer to what turns. It has a form where what it frees has one.
fn turn(from: Addr4, port: u16, freed: Parcels) -> Answer
    requires freed { IsTrue (are_parcels_written freed) }
    ensures told { result ≡ Turn from port freed }
    ensures form { IsTrue (is_answer_written result) }
{
    Answer::Turn { from, port, freed }
}

/// The answer to what comes in. It has a form where what it frees has one.
fn come(to: Addr4, port: u16, from: Addr4, peer: Addr4, freed: Parcels) -> Answer
    requires freed { IsTrue (are_parcels_written freed) }
    ensures told { result ≡ In to port from peer freed }
    ensures form { IsTrue (is_answer_written result) }
{
    Answer::In {
        to,
        port,
        from,
        peer,
        freed,
    }
}

/// The answer that a port is kept.
fn kept(port: u16, until: u64) -> Answer
    ensures told { result ≡ Kept port until }
    ensures form { IsTrue (is_answer_written result) }
{
    Answer::Kept { port, until }
}

/// The answer of an edge, with what it freed by its places alone.
fn answer_of(alloc: Global, answer: &Answer) -> Result<Answer, NoMemory>
    ensures told { IfOk result (λ told. told ≡ places_alone answer.now) }
    ensures form { IfOk result (λ told. IsTrue (is_answer_written told)) }
{
    Ok(match answer {
        Answer::Out {
            from,
            port,
            src6,
            dst6,
            freed,
        } => out(
            *from,
            *port,
            *src6,
            *dst6,
            places_of(alloc, freed.as_slice())?,
        ),
        Answer::Turn { from, port, freed } => {
            turn(*from, *port, places_of(alloc, freed.as_slice())?)
        }
        Answer::In {
            to,
            port,
            from,
            peer,
            freed,
        } => come(
            *to,
            *port,
            *from,
            *peer,
            places_of(alloc, freed.as_slice())?,
        ),
        Answer::Kept { port, until } => kept(*port, *until),
        Answer::Held => Answer::Held,
        Answer::Refused { cause, freed } => Answer::Refused {
            cause: *cause,
            freed: places_of(alloc, freed.as_slice())?,
        },
    })
}

/// A note of an edge, whose answer has a form.
fn noted(mark: Mark, answer: Answer) -> EdgeNote
    requires answer { IsTrue (is_answer_written answer) }
    ensures mark { result.mark ≡ mark }
    ensures answer { result.answer ≡ answer }
    ensures form { IsTrue (is_edge_note_written result) }
{
    EdgeNote { mark, answer }
}

/// What a trace tells of an entry of an edge.
fn edge_note_of(alloc: Global, entry: &Entry) -> Result<EdgeNote, NoMemory>
    ensures told { IfOk result (λ note. note ≡ edge_note entry.entry.now) }
    ensures form { IfOk result (λ note. IsTrue (is_edge_note_written note)) }
{
    Ok(noted(entry.mark, answer_of(alloc, &entry.answer)?))
}

/// What a trace tells of the history of an edge.
pub(crate) fn edge_history_of(alloc: Global, entries: &[Entry]) -> Result<EdgeHistory, NoMemory>
    ensures told { IfOk result (λ history. history.notes ≡ map edge_note entries.now) }
    ensures form { IfOk result (λ history. IsTrue (is_edge_written history)) }
{
    let mut notes = EdgeNotes::new(alloc);
    for entry in entries {
        notes.push(edge_note_of(alloc, entry)?)?;
    }
    Ok(EdgeHistory { notes })
}

/// The answer with the ports of a packet's first fragment.
fn known(ports: Ports) -> FragAnswer
    ensures told { result ≡ Known ports }
    ensures form { IsTrue (is_told_written result) }
{
    FragAnswer::Known(ports)
}

/// The answer of a stripe, with what it released by its places alone. What it releases is some.
fn told_of(alloc: Global, answer: &FragAnswer) -> Result<FragAnswer, NoMemory>
    requires some { (parcels : List ParcelType) → answer.now ≡ Released parcels → ¬ (parcels ≡ []) }
    ensures told { IfOk result (λ told. told ≡ told_alone answer.now) }
    ensures form { IfOk result (λ told. IsTrue (is_told_written told)) }
{
    Ok(match answer {
        FragAnswer::Noted => FragAnswer::Noted,
        FragAnswer::Known(ports) => known(*ports),
        FragAnswer::Held => FragAnswer::Held,
        FragAnswer::Released(parcels) => {
            FragAnswer::Released(places_of(alloc, parcels.as_slice())?)
        }
        FragAnswer::Full => FragAnswer::Full,
    })
}

/// A note of a stripe, whose answer has a form.
fn told(who: Who, answer: FragAnswer) -> StripeNote
    requires answer { IsTrue (is_told_written answer) }
    ensures who { result.who ≡ who }
    ensures answer { result.answer ≡ answer }
    ensures form { IsTrue (is_stripe_note_written result) }
{
    StripeNote { who, answer }
}

/// What a trace tells of an entry of a stripe, where what was released is some.
fn stripe_note_of(alloc: Global, entry: &StripeEntry) -> Result<StripeNote, NoMemory>
    requires some { (parcels : List ParcelType) → entry.now.answer ≡ Released parcels → ¬ (parcels ≡ []) }
    ensures told { IfOk result (λ note. note ≡ stripe_note entry.entry.now) }
    ensures form { IfOk result (λ note. IsTrue (is_stripe_note_written note)) }
{
    Ok(told(entry.who, told_of(alloc, &entry.answer)?))
}

/// What a trace tells of the history of a stripe, which is good: so what it released is some, each time.
pub(crate) fn stripe_history_of(
    alloc: Global,
    entries: &[StripeEntry],
) -> Result<StripeHistory, NoMemory>
    requires good { IsGoodStripe entries.now }
    ensures told { IfOk result (λ history. history.notes ≡ map stripe_note entries.now) }
    ensures form { IfOk result (λ history. IsTrue (is_stripe_written history)) }
{
    each_fragment_has_an_answer_of_its_kind();
    let mut notes = StripeNotes::new(alloc);
    for entry in entries {
        notes.push(stripe_note_of(alloc, entry)?)?;
    }
    Ok(StripeHistory { notes })
}

/// What a trace tells of the histories of these edges.
pub(crate) fn edge_histories_of(
    alloc: Global,
    edges: &[EdgeState],
) -> Result<EdgeHistories, NoMemory>
    ensures told { IfOk result (λ histories. map (λ (h : EdgeHistoryType). h.notes) histories
        ≡ map (map edge_note) (map (λ (e : EdgeShown). e.history) edges.now)) }
    ensures form { IfOk result (λ histories. IsTrue (list_all is_edge_written histories)) }
{
    let mut histories = EdgeHistories::new(alloc);
    for edge in edges {
        histories.push(edge_history_of(alloc, edge.history())?)?;
    }
    Ok(histories)
}

/// What a trace tells of the histories of these stripes.
pub(crate) fn stripe_histories_of(
    alloc: Global,
    stripes: &[StripeState],
) -> Result<StripeHistories, NoMemory>
    ensures told { IfOk result (λ histories. map (λ (h : StripeHistoryType). h.notes) histories
        ≡ map (map stripe_note) (map (λ (s : StripeShown). s.history) stripes.now)) }
    ensures form { IfOk result (λ histories. IsTrue (list_all is_stripe_written histories)) }
{
    let mut histories = StripeHistories::new(alloc);
    for stripe in stripes {
        histories.push(stripe_history_of(alloc, stripe.history())?)?;
    }
    Ok(histories)
}
