use st_base::Drawing;

/// How a thread's call continues. A held call has a drawing here, while entries have its number.
#[derive(Clone, Copy, Debug, PartialEq, Eq)]
pub enum CallWay {
    /// It is made at once, because its filters permit it plainly.
    Fast,
    /// The filter with this number refuses it plainly.
    Barred(u32),
    /// It is held: the filters are tried on the message that was posted with this drawing.
    Held(Drawing),
    /// No policy applies to its process.
    Untraced,
}
