//! Worked examples of the definitions.

ghost use Rattle.std.specs.Prelude.{◌≡◌, ◌++◌, ◌^◌, ◌-◌, Bool, true, [], codes};
ghost use Rattle.sd_io.specs.Streams.{SourceState, SinkState};
ghost use Rattle.sd_course.specs.Course.{Course, course};
ghost use Rattle.stream_rewrite.specs.declared.fault.StreamFault.TheVariants as stream;
ghost use Rattle.stream_rewrite.specs.Reading.{HasGivenOver, ReadsAll};
ghost use Rattle.stream_rewrite.specs.Stream.{WritesNew, StreamFails};
ghost use Rattle.stream_rewrite.specs.Examples.{FirstOfLine, EmptyToX, given};

/// What a stream becomes, and when it has given too much.
pub fn streams_are_replaced_as_in_the_examples()
    ensures by_line { (old : SinkState) → WritesNew FirstOfLine (codes "one one\none one\n")
        (course true old (record old { held = old.held ++ codes "1 one\n1 one\n" })) }
    ensures of_nothing { (old : SinkState) → WritesNew EmptyToX [] (course true old (record old { held = old.held ++ codes "x" })) }
    ensures nine_of_eight { (tells : Bool) → HasGivenOver 8 (given tells 0 9) }
    ensures eight_of_eight { (tells : Bool) → HasGivenOver 8 (given tells 0 8) → ⊥ }
    ensures at_last { (tells : Bool) → HasGivenOver 8 (given tells (2 ^ 64 - 1) (2 ^ 64 - 1)) }
    ensures written_before { (input : Course SourceState) (out : Course SinkState) → StreamFails EmptyToX 8 input out stream.InputTooLong → out.new ≡ out.old }
{}
