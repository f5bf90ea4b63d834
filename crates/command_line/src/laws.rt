//! What is true of the table of commands. The function does nothing: its contract is the law.

ghost use Rattle.command_line.specs.Manual.{AreTold};
ghost use Rattle.command_line.specs.declared.questions.Program.{Program};

/// What a program tells of its options has each option of each of its commands.
pub fn each_option_is_told()
    ensures { (of : Program) → AreTold of }
{}
