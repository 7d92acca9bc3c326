//! Laws on the definitions of DER: each is the contract of a function that does nothing.
ghost use Rattle.std.specs.Prelude.{◌≡◌, ℕ, [], ◌∷◌, Some, None, codes};
ghost use Rattle.lexical_core.specs.declared.rule.Rule.TheVariants.{UnexpectedTag, DerMissing, TooFew, Overrun};
ghost use Rattle.data_types.specs.Leaf.{Bytes};
ghost use Rattle.data_types.specs.Value.{Simple, Nothing, Child};
ghost use Rattle.reference_check.specs.Shapes.{AreFinite};
ghost use Rattle.der_model.specs.DerMessage.{DerMessage};
ghost use Rattle.der_model.specs.LeafContents.{integer_octets};
ghost use Rattle.der_model.specs.Der.{der_of};
ghost use Rattle.der_model.specs.Faults.{DerFault};
ghost use Rattle.der_model.specs.Sound.{IsSoundDer};
ghost use Rattle.der_model.specs.Laws.{OneValue, NoProperDerFront, OneDerFault, SpelledHasNoDerFault, WholeIsSpelled, OneAnswer, FaultStays, TablesAreSound};
ghost use Rattle.der_model.specs.MovedLaws.{FrontMoves, NextPartMoves, PlacesMove, NoFaultBefore, WholeMoves, WholeEnds};
ghost use Rattle.der_model.specs.SomeAnswers.{HaveKinds, CompiledHaveKinds, SomeContents, DerSpelledOrFaulty};
ghost use Rattle.der_model.specs.OpenLaws.{PartIsOpen, BrokenPartIsNotOpen, FrontIsOpen};
ghost use Rattle.der_model.specs.ShownLaws.{WholeShowsPieces, FrontShowsPieces, ShowOnePieces, OneMoreShows, FrontNests};
ghost use Rattle.der_model.specs.States.{Start};
ghost use Rattle.der_model.specs.ShownPieces.{PartsShow};
ghost use Rattle.der_model.specs.ShownExamples.{note_of_choices, choice_parts, choice_pieces};
ghost use Rattle.der_model.specs.Examples.{text_slot, list_slot, amount_slot, forms, note, with_note, one_character};

/// Bytes are the DER of at most one instance.
pub fn one_value()
    ensures { (m : DerMessage ℕ) → IsSoundDer m → OneValue m }
{}

/// No DER of an instance begins that of another.
pub fn no_proper_front()
    ensures { (m : DerMessage ℕ) → IsSoundDer m → NoProperDerFront m }
{}

/// Bytes have at most one first fault.
pub fn one_fault()
    ensures { (m : DerMessage ℕ) → IsSoundDer m → OneDerFault m }
{}

/// The DER of an instance has no fault.
pub fn spelled_has_none()
    ensures { (m : DerMessage ℕ) → IsSoundDer m → SpelledHasNoDerFault m }
{}

/// Parts that break no rule up to the end of the instance, and these alone, are the DER of an instance
/// that the message admits.
pub fn whole_is_spelled()
    ensures { (m : DerMessage ℕ) → IsSoundDer m → WholeIsSpelled m }
{}

/// Bytes have at most one answer: the instance that they spell, or their first fault.
pub fn one_answer()
    ensures { (m : DerMessage ℕ) → IsSoundDer m → OneAnswer m }
{}

/// A fault stays, whatever follows the bytes, but for one that the bytes end too early.
#[tactic(auto, using(crate::proofs::Continued::fault_stays))]
pub fn fault_stays()
    ensures { (m : DerMessage ℕ) → FaultStays m }
{}

/// Parts that break no rule, and what stands next, are the same wherever they begin: places move with them, and so do the ends
/// of what is open.
pub fn front_moves()
    ensures clean { (m : DerMessage ℕ) → FrontMoves m }
    ensures next { (m : DerMessage ℕ) → NextPartMoves m }
{}

/// Where a message begins moves the place of its first fault, by as much, and changes nothing else; where the message is whole
/// it ends as far on as it has octets.
pub fn places_move()
    ensures fault { (m : DerMessage ℕ) → PlacesMove m }
    ensures before { (m : DerMessage ℕ) → NoFaultBefore m }
    ensures whole { (m : DerMessage ℕ) → WholeMoves m }
    ensures end { (m : DerMessage ℕ) → WholeEnds m }
{}

/// No contents octets neither are those of a leaf that fits a simple type nor break a rule.
pub fn some_contents()
    ensures { SomeContents }
{}

/// No bytes are neither the DER of an instance nor have a first fault, where each element leads to a type of a kind
/// that instances have.
pub fn spelled_or_faulty()
    ensures { (m : DerMessage ℕ) → IsSoundDer m → HaveKinds m.forms → DerSpelledOrFaulty m }
{}

/// Elements lead to types of kinds that instances have where each of these types has an instance.
pub fn finite_have_kinds()
    ensures { (m : DerMessage ℕ) → AreFinite m.forms m.root → HaveKinds m.forms }
{}

/// The compiled types of a message that breaks no rule: each element leads to a type of a kind that instances have.
#[tactic(auto, using(crate::proofs::CompiledKinds::compiled_have_kinds))]
pub fn compiled_have_kinds()
    ensures { CompiledHaveKinds }
{}

/// A part breaks no rule exactly where the parts with it, lengths left aside, go on to those of an instance.
#[tactic(auto, using(crate::proofs::PartsFront::part_is_open))]
pub fn part_is_open()
    ensures { (m : DerMessage ℕ) → IsSoundDer m → AreFinite m.forms m.root → PartIsOpen m }
{}

/// A part that breaks a rule is told at once: with it the parts go on to no instance.
pub fn broken_is_not_open()
    ensures { (m : DerMessage ℕ) → IsSoundDer m → AreFinite m.forms m.root → BrokenPartIsNotOpen m }
{}

/// Parts at the front of bytes that break no rule go on to those of an instance.
pub fn front_is_open()
    ensures { (m : DerMessage ℕ) → IsSoundDer m → AreFinite m.forms m.root → FrontIsOpen m }
{}

/// Parts that break no rule up to the end of the instance show the pieces of the instance that the bytes spell.
#[tactic(auto, using(crate::proofs::ShownPieces::whole_shows_pieces))]
pub fn whole_shows_pieces()
    ensures { (m : DerMessage ℕ) → IsSoundDer m → WholeShowsPieces m }
{}

/// Parts that break no rule show some pieces.
#[tactic(auto, using(crate::proofs::ShownPieces::front_shows_pieces))]
pub fn front_shows_pieces()
    ensures { (m : DerMessage ℕ) → FrontShowsPieces m }
{}

/// Parts show one list of pieces.
#[tactic(auto, using(crate::proofs::ShownPieces::show_one_pieces))]
pub fn show_one_pieces()
    ensures { (m : DerMessage ℕ) → ShowOnePieces m }
{}

/// One part more shows its pieces behind those of the parts before it.
#[tactic(auto, using(crate::proofs::ShownPieces::one_more_shows))]
pub fn one_more_shows()
    ensures { (m : DerMessage ℕ) → OneMoreShows m }
{}

/// The pieces that parts show nest: behind those from the start on the elements of the state are open.
#[tactic(auto, using(crate::proofs::NestedPieces::front_nests))]
pub fn front_nests()
    ensures { (m : DerMessage ℕ) → FrontNests m }
{}

/// What the laws ask of a message holds of that of tables whose types are sound, whose codes are sorted, and of which
/// `Document` is a sequence.
#[tactic(auto, using(crate::proofs::SoundMessages::tables_are_sound))]
pub fn tables_are_sound()
    ensures { TablesAreSound }
{}

/// What the laws ask of a message is met by one with a text, a list of texts and an amount.
#[tactic(auto, using(crate::proofs::Examples::row_sound))]
pub fn a_message_is_sound()
    ensures { IsSoundDer (note (text_slot (Some 1) ∷ list_slot ∷ amount_slot ∷ [])) }
{}

/// Its elements lead to types of kinds that instances have.
#[tactic(auto, using(crate::proofs::SomeKinds::row_kinds))]
pub fn a_message_has_kinds()
    ensures { HaveKinds (forms (text_slot (Some 1) ∷ list_slot ∷ amount_slot ∷ [])) }
{}

/// Values with their DER.
#[tactic(auto, using(crate::proofs::Examples::row_text, crate::proofs::Examples::row_list, crate::proofs::Examples::row_empty, crate::proofs::Examples::row_code))]
pub fn der_of_examples()
    ensures text { der_of (note (text_slot (Some 1) ∷ [])) (with_note (Child 0 (Simple (Bytes (codes "A1"))) Nothing))
        ≡ 48 ∷ 6 ∷ 160 ∷ 4 ∷ 128 ∷ 2 ∷ 65 ∷ 49 ∷ [] }
    ensures list { der_of (note (text_slot None ∷ [])) (with_note (Child 0 (one_character 65) (Child 0 (one_character 66) Nothing)))
        ≡ 48 ∷ 10 ∷ 160 ∷ 8 ∷ 160 ∷ 6 ∷ 12 ∷ 1 ∷ 65 ∷ 12 ∷ 1 ∷ 66 ∷ [] }
    ensures empty { der_of (note (text_slot None ∷ [])) (with_note Nothing) ≡ 48 ∷ 4 ∷ 160 ∷ 2 ∷ 160 ∷ 0 ∷ [] }
    ensures code { integer_octets 128 ≡ 0 ∷ 128 ∷ [] }
{}

/// Bytes with their first fault.
#[tactic(auto, using(crate::proofs::Examples::row_tag_fault, crate::proofs::Examples::row_missing, crate::proofs::Examples::row_few, crate::proofs::Examples::row_overrun))]
pub fn faults_of_examples()
    ensures tag { DerFault (note (text_slot (Some 1) ∷ [])) (48 ∷ 4 ∷ 160 ∷ 2 ∷ 129 ∷ 0 ∷ [])
        (record { rule = UnexpectedTag; place = 4; path = codes "/Document[1]/Note[1]" }) }
    ensures missing { DerFault (note (text_slot None ∷ [])) (48 ∷ 2 ∷ 160 ∷ 0 ∷ [])
        (record { rule = DerMissing; place = 4; path = codes "/Document[1]/Note[1]/Id" }) }
    ensures few { DerFault (note (text_slot None ∷ [])) (48 ∷ 6 ∷ 160 ∷ 4 ∷ 160 ∷ 0 ∷ 129 ∷ 0 ∷ [])
        (record { rule = TooFew; place = 6; path = codes "/Document[1]/Note[1]/Id" }) }
    ensures overrun { DerFault (note (text_slot (Some 1) ∷ [])) (48 ∷ 6 ∷ 160 ∷ 5 ∷ 128 ∷ 2 ∷ 65 ∷ 49 ∷ [])
        (record { rule = Overrun; place = 3; path = codes "/Document[1]/Note[1]" }) }
{}

/// Items that are choices begin and end with their alternatives.
#[tactic(auto, using(crate::proofs::ShownExamples::row_choices))]
pub fn pieces_of_example()
    ensures { PartsShow note_of_choices Start 0 choice_parts choice_pieces }
{}
