//! What joins the lists to what they represent, as the contracts of calls that do nothing.

ghost use Rattle.fit_plans.specs.Points.{ListsInside, TurnedPoints};
ghost use Rattle.fit_plans.specs.TurnedCovers.{TurnedAgain, TurnedStaysPrime};

/// A turned cube has a point just if the cube has the point with the levels of the mask's variables exchanged. Does
/// nothing.
pub fn turned_points()
    ensures { TurnedPoints }
{}

/// If each list of levels is carried from some point whose nodes are valued, the two lists of a function ask no variable
/// past the levels, and each needed point is allowed. Does nothing.
pub fn lists_inside()
    ensures { ListsInside }
{}

/// Rows that are prime and irredundant between two lists stay so if the levels of some variables are exchanged in all
/// three; so rows over the columns under one mask are, turned, rows under another. Does nothing.
pub fn turned_covers()
    ensures prime { TurnedStaysPrime }
    ensures again { TurnedAgain }
{}
