// What the lines of a text are.
ghost use Rattle.lines.specs.Lines.{LinesStand};

/// The one way to part a text into lines.
pub fn lines_stand()
    ensures { LinesStand }
{}
