ghost use Rattle.grape_run.specs.Resuming.{FilesStayResumable, ResumedStartsAreFit};

/// A file that may be resumed stays one, whatever a crash leaves, and from it every run of the job comes to the answer.
pub fn files_stay_resumable()
    ensures stay { FilesStayResumable }
    ensures fit { ResumedStartsAreFit }
{}
