//! Laws of what is shown. Each law is a function whose clause is the law; it does nothing.

ghost use Rattle.lsl_view.specs.Laws.{CompiledCodeIsNamed, ViewsAreOfTheSource};

/// What is shown of the parts of a world, if its units run the programs of a file, is the world's own live calls, as
/// its texts mean them: their names, their lines and their slots. No instruction, frame or place in code is in that
/// view.
pub fn views_are_of_the_source()
    ensures { ViewsAreOfTheSource }
{}

/// The compiler's code of a program keeps the names of its functions and events.
pub fn compiled_code_is_named()
    ensures { CompiledCodeIsNamed }
{}
