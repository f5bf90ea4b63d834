//! Laws of courses. The functions do nothing: their contracts are the laws.

ghost use Rattle.front_course.specs.Claims.{CoursesBoundLosses, TracesHaveCourses};

/// Every complete trace has a course that is no longer than it.
pub fn complete_traces_have_courses()
    ensures { TracesHaveCourses }
{}

/// Where no course is shorter than a length, every lawful plan loses at least the glass before it that is no item.
pub fn courses_bound_losses()
    ensures { CoursesBoundLosses }
{}
