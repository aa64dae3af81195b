//! Laws of numbers, frames and streams. Each function does nothing: its clause is the law.

ghost use Rattle.std.specs.Prelude.{◌≡◌, ◌≤◌, ◌<◌, ◌+◌, ◌^◌, ◌++◌, [], ℕ, Bool, List, Option, None};
ghost use Rattle.std.specs.Prelude.{Some, Result, Ok, Err, length, take, slice_index};
ghost use Rattle.std.specs.List.{flat_map, AllByRecursion};
ghost use Rattle.byteorder.specs.Endian.{little_bytes, little_number};
ghost use Rattle.frame_codec.specs.declared.frame.Frame.{Frame};
ghost use Rattle.frame_codec.specs.declared.reader.ReadFault.{ReadFault};
ghost use Rattle.frame_codec.specs.Laws.{FaultsExcludeFrames, OneFault, FeedsDecide, FeedsBegin};
ghost use Rattle.frame_codec.specs.Laws.{FeedsAgree};
ghost use Rattle.frame_codec.specs.Frames.{IsFrame, encoding, payload_of, payload_size};
ghost use Rattle.frame_codec.specs.Streams.{IsFrameOf, Begins, HasFrame, Feeds, FeedsAll, Reads};
ghost use Rattle.frame_codec.specs.Streams.{Stops, Arrives, joined_pieces};

/// The bytes that are read as a number are its only encoding in so many bytes.
pub fn one_number()
    ensures read { (n : ℕ) (bytes : List ℕ) → ((i : ℕ) → slice_index bytes i < 256) →
        n ≤ length bytes → little_bytes n (little_number n bytes) ≡ take n bytes }
    ensures written { (n x : ℕ) (more : List ℕ) → x < 256 ^ n →
        little_number n (little_bytes n x ++ more) ≡ x }
{}

/// How long a frame's payload is, and that five bytes are before it.
pub fn length_of_encoding()
    ensures payload { (f : Frame) → length (payload_of f) ≡ payload_size f }
    ensures encoding { (f : Frame) → length (encoding f) ≡ 5 + payload_size f }
{}

/// No encoding begins another, and no two frames have one encoding.
pub fn one_encoding()
    ensures { (f g : Frame) (x y : List ℕ) → IsFrame f → IsFrame g →
        encoding f ++ x ≡ encoding g ++ y → (f ≡ g) × (x ≡ y) }
{}

/// Bytes are read in one way as frames and a rest that begins with none.
pub fn one_reading()
    ensures { (wide : Bool) (bytes : List ℕ) (frames others : List Frame) (rest end : List ℕ) →
        Begins wide bytes frames rest → Begins wide bytes others end → (HasFrame wide rest → ⊥) →
        (HasFrame wide end → ⊥) → (frames ≡ others) × (rest ≡ end) }
{}

/// However a stream is cut, the frames given are those of the stream so far, a fault comes after
/// the frames before it, and two chunkings give the same frames and keep the same rest.
pub fn any_chunking()
    ensures frames { (wide : Bool) (pieces : List (List ℕ)) (frames : List Frame) (rest : List ℕ) →
        FeedsAll wide [] pieces frames rest → Reads wide (joined_pieces pieces) frames rest }
    ensures fault { (wide : Bool) (pieces : List (List ℕ)) (frames : List Frame)
        (rest piece : List ℕ) (fault : ReadFault) (last : List Frame) (new : Option (List ℕ)) →
        FeedsAll wide [] pieces frames rest → Feeds wide (Some rest) piece (Err fault) last new →
        Stops wide (joined_pieces pieces ++ piece) (frames ++ last) fault }
    ensures same { (wide : Bool) (pieces others : List (List ℕ)) (frames more : List Frame)
        (rest end : List ℕ) →
        FeedsAll wide [] pieces frames rest → FeedsAll wide [] others more end →
        joined_pieces pieces ≡ joined_pieces others → (frames ≡ more) × (rest ≡ end) }
{}

/// Of frames that were sent, those that are whole are read, and the others are still on their way.
pub fn reads_what_was_sent()
    ensures { (wide : Bool) (old piece later : List ℕ) (sent : List Frame)
        (answer : Result (Unit {0}) ReadFault) (frames : List Frame) (new : Option (List ℕ)) →
        AllByRecursion (IsFrameOf wide) sent → (old ++ piece) ++ later ≡ flat_map encoding sent →
        Feeds wide (Some old) piece answer frames new →
        (more : List Frame) × (sent ≡ frames ++ more) × AllByRecursion (IsFrameOf wide) more ×
        Arrives answer new later more }
{}

/// One place has a frame, or one fault, or neither.
pub fn one_fault()
    ensures frames { FaultsExcludeFrames }
    ensures faults { OneFault }
{}

/// What a feed returns, the frames that it gives and what it leaves unfinished are decided by the
/// bytes that were unfinished and the piece, unless memory is refused; then the frames are the
/// first of those that it would have given.
pub fn feeds_decide()
    ensures same { FeedsDecide }
    ensures prefix { FeedsBegin }
    ensures either { FeedsAgree }
{}
