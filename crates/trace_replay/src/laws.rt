ghost use Rattle.std.specs.Prelude.{◌≡◌, ◌≢◌, ◌<◌, ◌+◌, ◌*◌, ℕ, List, length, drop, slice_index};
ghost use Rattle.control_lines.specs.Laws.{MeansOne};
ghost use Rattle.ice_values.specs.Numbers.{number};
ghost use Rattle.ice_values.specs.Reading.{IsBytes};
ghost use Rattle.ice_values.specs.declared.numbers.Endian.{Endian as AnyEndian};
ghost use Rattle.ice_messages.specs.Messages.{Refused as IceRefused};
ghost use Rattle.xsmp_messages.specs.Messages.{Refused as XsmpRefused};
ghost use Rattle.trace_replay.specs.Frames.{header_refusal};
ghost use Rattle.trace_replay.specs.Shows.{ShowsWithin};

/// Does nothing: its contract is a law of `show` and `smtrace_main`. A trace has one answer at
/// most: one text, or one line that is the first that isn't of the grammar.
pub fn a_trace_has_one_answer()
    ensures { (limit : ℕ) (trace : List ℕ) → MeansOne (ShowsWithin limit trace) }
{}

/// Does nothing: its contract is a law of `show`. The word that stands for a header which states
/// more than itself is that of a refusal with its cause, under major opcode 0 as ICE refuses it and
/// under any other as XSMP does.
pub fn a_cut_header_is_refused()
    ensures ice { (e : AnyEndian) (bytes : List ℕ) → IsBytes bytes →
        length bytes < 8 + 8 * number e 4 (drop 4 bytes) → slice_index bytes 0 ≡ 0 →
        IceRefused e bytes (header_refusal bytes) }
    ensures xsmp { (e : AnyEndian) (bytes : List ℕ) → IsBytes bytes →
        length bytes < 8 + 8 * number e 4 (drop 4 bytes) → slice_index bytes 0 ≢ 0 →
        XsmpRefused e bytes (header_refusal bytes) }
{}
