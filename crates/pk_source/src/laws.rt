// What holds of every outline, stated on a function that does nothing.
ghost use Rattle.pk_source.specs.Laws.{HeaderAdds, NoteAdds, ValuesStand};

/// A value stands at its field's place in the table. One more header that is read whole, and one more note of the last
/// header, add to an outline what they add to the frame's tree.
pub fn outlines_are_trees()
    ensures stand { ValuesStand }
    ensures header { HeaderAdds }
    ensures note { NoteAdds }
{}
