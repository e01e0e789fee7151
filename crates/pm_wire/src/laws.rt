//! Laws: a stream has one reading, which any list of calls gives; the greatest number counts; the answers follow from the bytes,
//! and an early end holds a beginning of them.

ghost use Rattle.std.specs.Prelude.{◌≡◌, ℕ, ◌<◌, ◌≤◌, ℤ, List, ◌∷◌, ◌++◌, length, Option, Some, None};
ghost use Rattle.pm_base.specs.Limits.{most_nodes};
ghost use Rattle.pm_basis.specs.Prices.{BasisValue};
ghost use Rattle.pm_wire.specs.Answers.{OpenMarket, market_behind, AreReplies};
ghost use Rattle.pm_wire.specs.Newest.{HasGreatestNumber, HasNone, DemandCounts, NothingCounts};
ghost use Rattle.pm_wire.specs.declared.frame.Frame.TheVariants.{Hello};
ghost use Rattle.pm_wire.specs.declared.frame.Frame.{Frame};
ghost use Rattle.pm_wire.specs.Framing as framing;
ghost use Rattle.pm_wire.specs.Calls.{Call, waits, refuses, MakesCall, MakeCalls, bytes_fed, frames_given};
ghost use Rattle.pm_wire.specs.Decoding.{Decoding, nothing_fed_at};
ghost use Rattle.pm_wire.specs.Services.{IsDone, IsRefused, IsAnswered, FailsReading, IsLongStream, IsCutShort, IsBegun};
ghost use Rattle.pm_wire.specs.Services.{stream_limit, EndsWhole, HoldsFirstAnswers, HoldsLess};
ghost use Rattle.pm_wire.specs.Frames.{bid_framing, BeginsWith, AreFrames, Stops, place_behind, HasBadFrame, EndsWithin};

use crate::stream_frame::StreamFrame;

/// A law: some bytes have one list of frames, and one offset at which a bad frame stands or they end within one, and no two
/// of these. A bad frame stays where it is, whatever follows.
pub fn streams_have_one_reading()
    ensures one_list { (bytes : List ℕ) (frames others : List Frame) (rest left : List ℕ)
        → BeginsWith bytes frames rest → Stops (place_behind None frames) rest
        → BeginsWith bytes others left → Stops (place_behind None others) left →
        (frames ≡ others) × (rest ≡ left) }
    ensures one_offset { (bytes : List ℕ) (offset other : ℕ)
        → HasBadFrame bytes offset → HasBadFrame bytes other → offset ≡ other }
    ensures one_end { (bytes : List ℕ) (offset other : ℕ)
        → EndsWithin bytes offset → EndsWithin bytes other → offset ≡ other }
    ensures frames_are_not_bad { (bytes : List ℕ) (frames : List Frame) (offset : ℕ)
        → AreFrames bytes frames → ¬ HasBadFrame bytes offset }
    ensures frames_do_not_end_within { (bytes : List ℕ) (frames : List Frame) (offset : ℕ)
        → AreFrames bytes frames → ¬ EndsWithin bytes offset }
    ensures bad_does_not_end_within { (bytes : List ℕ) (offset other : ℕ)
        → HasBadFrame bytes offset → ¬ EndsWithin bytes other }
    ensures bad_stays { (bytes more : List ℕ) (offset : ℕ)
        → HasBadFrame bytes offset → HasBadFrame (bytes ++ more) offset }
{}

/// A law over any list of calls of `feed` and `next`: the frames given are the first of the bytes fed, in whatever pieces these
/// came, and what is left stands behind them. If `next` gives none, the frames given are all whole ones. If it tells a bad
/// frame, the offset is that of the bad frame in the bytes fed.
pub fn frames_given_are_those_fed<F: StreamFrame>()
    ensures first { (start : F.Place) (calls : List (Call F)) (new : Decoding F.Place)
        → MakeCalls F.framing (nothing_fed_at start) calls new
        → framing.BeginsWith F.framing start (bytes_fed calls) (frames_given calls) new.rest }
    ensures all { (start : F.Place) (calls : List (Call F)) (mid new : Decoding F.Place)
        → MakeCalls F.framing (nothing_fed_at start) calls mid → MakesCall F.framing mid waits new
        → framing.HasFrames F.framing start (bytes_fed calls) (frames_given calls) }
    ensures bad { (start : F.Place) (calls : List (Call F)) (mid new : Decoding F.Place) (at : ℕ)
        → MakeCalls F.framing (nothing_fed_at start) calls mid
        → MakesCall F.framing mid (refuses at) new
        → framing.HasBadFrame F.framing start (bytes_fed calls) at }
    ensures however_cut { (start : F.Place) (calls others : List (Call F))
        (mid new middle last : Decoding F.Place) → bytes_fed calls ≡ bytes_fed others
        → MakeCalls F.framing (nothing_fed_at start) calls mid → MakesCall F.framing mid waits new
        → MakeCalls F.framing (nothing_fed_at start) others middle
        → MakesCall F.framing middle waits last
        → frames_given calls ≡ frames_given others }
{
    F::is_framing();
}

/// A law: what a service appends is a function of the bytes of its input if it ends with Done, and if it ends with Refused,
/// however the source cuts them. One input does not end both ways. If the source fails, or the input is too long, what is
/// appended is a function of the bytes that were taken. They are within the limit in the first case, and past it in the second.
/// An input past the limit is answered to its end only up to a bad frame.
pub fn replies_are_of_the_bytes()
    ensures done { (all held : List ℕ) (new other holds kept : Option (List ℕ))
        → IsDone bid_framing None AreReplies (Some all) new (Some held) holds
        → IsDone bid_framing None AreReplies (Some all) other (Some held) kept → holds ≡ kept }
    ensures refused { (all held : List ℕ) (new other holds kept : Option (List ℕ))
        → IsRefused bid_framing None AreReplies (Some all) new (Some held) holds
        → IsRefused bid_framing None AreReplies (Some all) other (Some held) kept → holds ≡ kept }
    ensures not_both { (all held : List ℕ) (new other holds kept : Option (List ℕ))
        → IsDone bid_framing None AreReplies (Some all) new (Some held) holds
        → ¬ IsRefused bid_framing None AreReplies (Some all) other (Some held) kept }
    ensures answered { (all held input taken : List ℕ) (new holds kept : Option (List ℕ))
        → IsAnswered bid_framing None AreReplies (Some all) new (Some held) holds input
        → IsAnswered bid_framing None AreReplies (Some all) new (Some held) kept taken
        → holds ≡ kept }
    ensures within_or_past { (all held : List ℕ) (new holds kept : Option (List ℕ))
        → FailsReading bid_framing None AreReplies (Some all) new (Some held) holds
        → ¬ IsLongStream bid_framing None AreReplies (Some all) new (Some held) kept }
    ensures past_the_limit { (all held : List ℕ) (new holds : Option (List ℕ)) →
        stream_limit < length all
        → EndsWhole bid_framing None AreReplies (Some all) new (Some held) holds
        → (offset : ℕ) × HasBadFrame all offset }
{}

/// A law: a service that ends early holds a beginning of what a service holds that answers the same input to the end, or to
/// a fault. If the source fails, the input is too long or memory is short, these are whole answers, to the first frames. If
/// the sink fails, at least one byte is missing.
pub fn early_ends_hold_a_beginning()
    ensures read_fault { (all held : List ℕ) (new other holds kept : Option (List ℕ))
        → FailsReading bid_framing None AreReplies (Some all) new (Some held) holds
        → EndsWhole bid_framing None AreReplies (Some all) other (Some held) kept
        → HoldsFirstAnswers bid_framing None AreReplies all held holds kept }
    ensures too_long { (all held : List ℕ) (new other holds kept : Option (List ℕ))
        → IsLongStream bid_framing None AreReplies (Some all) new (Some held) holds
        → EndsWhole bid_framing None AreReplies (Some all) other (Some held) kept
        → HoldsFirstAnswers bid_framing None AreReplies all held holds kept }
    ensures no_memory { (all held : List ℕ) (new other holds kept : Option (List ℕ))
        → IsBegun bid_framing None AreReplies (Some all) new (Some held) holds
        → EndsWhole bid_framing None AreReplies (Some all) other (Some held) kept
        → HoldsFirstAnswers bid_framing None AreReplies all held holds kept }
    ensures write_fault { (all held : List ℕ) (new other holds kept : Option (List ℕ))
        → IsCutShort bid_framing None AreReplies (Some all) new (Some held) holds
        → EndsWhole bid_framing None AreReplies (Some all) other (Some held) kept
        → HoldsLess held holds kept }
{}

/// A law: of each child the Bid or Gone with the greatest number counts, whatever the order of the frames, and nothing of a child
/// from which none came. Behind Hello the demand of a Bid that counts is the child's, and that of a Gone is no power.
pub fn the_greatest_number_counts()
    ensures counts { (basis : BasisValue) (frames : List Frame) (market : OpenMarket)
        (child number : ℕ) (demand : Option (List ℤ)) →
        framing.AllStand bid_framing (Some basis.steps) frames
        → market_behind None (Hello basis ∷ frames) ≡ Some market → 1 ≤ child
        → child ≤ most_nodes → HasGreatestNumber child frames number demand
        → DemandCounts market.cache child number demand }
    ensures none_counts { (basis : BasisValue) (frames : List Frame) (market : OpenMarket)
        (child : ℕ) → framing.AllStand bid_framing (Some basis.steps) frames
        → market_behind None (Hello basis ∷ frames) ≡ Some market → 1 ≤ child
        → child ≤ most_nodes → HasNone child frames → NothingCounts market.cache child }
{}
