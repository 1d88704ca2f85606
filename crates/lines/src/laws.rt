// The theorems about lines. The calls do nothing; their contracts are the theorems.
ghost use Rattle.lines.specs.Fields.{RightJustified};
ghost use Rattle.lines.specs.Lines.{LineAndBytes};

// A line and its 29 bytes fix each other, whatever follows them.
pub fn line_and_bytes()
    ensures { LineAndBytes }
{}

// A number in its columns is its decimal text, right-justified.
pub fn right_justified()
    ensures { RightJustified }
{}
