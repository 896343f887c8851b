// The laws of the runs, for every plan.
#![tactic(auto)]

ghost use Rattle.laws.specs.Certifying.{CertificateLaw};
ghost use Rattle.laws.specs.Raising.{RaisingLaw};
ghost use Rattle.laws.specs.Tightening.{TighteningLaw};

// Raising is least and complete.
fn raising_is_least()
    ensures { RaisingLaw }
{}

// An accepted certificate leaves brackets that hold every exact solution, and over proved ones none wider.
fn certificates_hold()
    ensures { CertificateLaw }
{}

// Tightening loses no exact solution and widens no bracket.
fn tightening_is_sound()
    ensures { TighteningLaw }
{}
