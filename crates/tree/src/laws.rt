// The laws of trees: each is proved where it is named.
ghost use Rattle.tree.specs.Theorems.{EmptyIsLawful, AddKeepsLaw, PutKeepsLaw, DropKeepsLaw, MoveKeepsLaw, NextKeepsLaw, ClearKeepsLaw};
ghost use Rattle.tree.specs.Theorems.{AddRefused, PutRefused, DropRefused, MoveRefused, NextRefused};
ghost use Rattle.tree.specs.Theorems.{ClimbsByAnySteps, LawByAnyWay};
ghost use Rattle.tree.specs.Theorems.{AddLeavesRest, PutLeavesRest, DropLeavesRest, MoveLeavesRest, NextLeavesRest, ClearLeavesRest};
ghost use Rattle.tree.specs.Theorems.{AtAfterAdd, AtAfterPut, AtAfterDrop, AtAfterMove, LookAfterAdd, LookAfterPut, LookAfterDrop, LookAfterMove};
ghost use Rattle.tree.specs.Theorems.{LookFinds, LookInNoDirectory, LookForNoName, ChildFinds, ChildFindsNone};

pub fn changes_keep_the_law()
    ensures start { EmptyIsLawful }
    ensures adds { AddKeepsLaw }
    ensures puts { PutKeepsLaw }
    ensures drops { DropKeepsLaw }
    ensures moves { MoveKeepsLaw }
    ensures next { NextKeepsLaw }
    ensures clears { ClearKeepsLaw }
{}

pub fn refusals_change_nothing()
    ensures adds { AddRefused }
    ensures puts { PutRefused }
    ensures drops { DropRefused }
    ensures moves { MoveRefused }
    ensures next { NextRefused }
{}

// The bound on the steps of a way up bounds nothing in a tree within its capacity.
pub fn climbs_by_any_steps()
    ensures steps { ClimbsByAnySteps }
    ensures law { LawByAnyWay }
{}

// Accepted or not, a change leaves all but its own object as it was.
pub fn changes_leave_the_rest()
    ensures adds { AddLeavesRest }
    ensures puts { PutLeavesRest }
    ensures drops { DropLeavesRest }
    ensures moves { MoveLeavesRest }
    ensures next { NextLeavesRest }
    ensures clears { ClearLeavesRest }
{}

// By number and by name.
pub fn lookups_after_changes()
    ensures at_add { AtAfterAdd }
    ensures at_put { AtAfterPut }
    ensures at_drop { AtAfterDrop }
    ensures at_move { AtAfterMove }
    ensures look_add { LookAfterAdd }
    ensures look_put { LookAfterPut }
    ensures look_drop { LookAfterDrop }
    ensures look_move { LookAfterMove }
{}

pub fn look_means()
    ensures finds { LookFinds }
    ensures no_directory { LookInNoDirectory }
    ensures no_name { LookForNoName }
{}

pub fn child_means()
    ensures finds { ChildFinds }
    ensures none { ChildFindsNone }
{}
