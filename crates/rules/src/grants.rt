// What is granted and refused, one named move or a run over choices.
ghost use Rattle.rules.specs.GrantLaws.{
  GrantedExactly,
  GrantedMakes,
  NoSuchExactly,
  LimitExactly,
  NotPermittedExactly,
  RefusedLeaves,
  PermissionLooks,
  ChoicesRun,
  ChoicesStop,
  ChoicesAlike,
};

// A move is granted exactly if it is named, the limit is not reached and the rules permit it; then it is made.
// The refusals come in the order of their numbers and change nothing.
pub fn grants_tell()
    ensures granted { GrantedExactly }
    ensures makes { GrantedMakes }
    ensures none { NoSuchExactly }
    ensures limit { LimitExactly }
    ensures refused { NotPermittedExactly }
    ensures leaves { RefusedLeaves }
{}

// Neither the limit nor any other count, word or cell alters a permission.
pub fn limit_alters_no_permission()
    ensures { PermissionLooks }
{}

// A run over choices is a run of permitted moves; whatever the choices, those that come to rest end alike.
pub fn choices_do_not_matter()
    ensures runs { ChoicesRun }
    ensures stops { ChoicesStop }
    ensures alike { ChoicesAlike }
{}
